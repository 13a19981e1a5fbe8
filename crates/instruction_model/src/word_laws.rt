//! Laws of the table of instruction words. A function here does nothing: its contract is the law.

ghost use Rattle.std.specs.Prelude.{◌≡◌, ℕ, ◌^◌, ◌<◌};
ghost use Rattle.instruction_model.specs.InstructionWord.{IsSound, IsWordOf, Decodes, word_of};
ghost use Rattle.instruction_model.specs.Reading.{reading};
ghost use Rattle.instruction_model.specs.declared.instruction.Inst.{Inst};

/// A word fits at most one row of the table, and its fields there have one value.
pub fn one_instruction()
    ensures { (w : ℕ) (u v : Inst) → IsWordOf w u → IsWordOf w v → u ≡ v }
{}

/// An instruction whose fields are in their ranges has a word, and no other.
pub fn one_word()
    ensures has { (v : Inst) → IsSound v → IsWordOf (word_of v) v }
    ensures only { (v : Inst) (w u : ℕ) → IsWordOf w v → IsWordOf u v → w ≡ u }
{}

/// Each word of 32 bits is some instruction's or fits no row, and reading it off its fields
/// finds out which.
pub fn every_word()
    ensures { (w : ℕ) → w < 2 ^ 32 → Decodes w (reading w) }
{}
