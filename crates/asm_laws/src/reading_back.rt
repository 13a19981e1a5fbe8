//! A law of assembler text. The function here does nothing: its contract is the law.

ghost use Rattle.std.specs.Prelude.{◌≡◌, ℕ, ◌^◌, ◌<◌, true, Ok};
ghost use Rattle.asm_lines.specs.Statement.{statement, Word};
ghost use Rattle.rv_asm.specs.Disassembly.{disassembly};

use instruction_model::every_word;

/// The line of a word, as `disassemble` prints it, says that word within a segment.
pub fn text_is_read_back()
    ensures { (w : ℕ) → w < 2 ^ 32 → statement true (disassembly w) ≡ Ok (Word w) }
{
    every_word();
}
