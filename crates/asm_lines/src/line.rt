//! What a line says.

ghost use Rattle.std.specs.Prelude.{◌≡◌, IfOk};
ghost use Rattle.asm_lines.specs.Said.{said, told, IsInRange};
ghost use Rattle.asm_lines.specs.Statement as model;
ghost use Rattle.asm_words.specs.Text as model_words;

use crate::AsmKind;
use crate::directive::{directive, stands_in_segment};
use crate::instruction::instruction;
use crate::label::is_name;
use crate::mnemonic::{directive_named, mnemonic_named};
use asm_words::{behind_word, byte_at, content, first_word, is_blank, one_word};
use rv_code::BranchOp;

/// What a line says. Names are those of labels, as the line spells them.
#[derive(Clone, Copy)]
pub enum Statement<'a> {
    /// An empty line.
    Nothing,
    /// The address here has a name.
    Label(&'a [u8]),
    /// A segment of `size` bytes begins at the address `at`. Of the flags 4 is read, 2 write and
    /// 1 execute.
    Segment { at: u64, flags: u32, size: u64 },
    /// The program begins at the label.
    Entry(&'a [u8]),
    /// Bytes stand here in the segment.
    Data(Data<'a>),
}

/// What bytes a line says. Names are those of labels, as the line spells them.
#[derive(Clone, Copy)]
pub enum Data<'a> {
    /// Four bytes, the lowest first: a number, or an instruction.
    Word(u32),
    Byte(u8),
    /// So many bytes 0.
    Zeros(u64),
    /// Four bytes: a branch to the label.
    BranchTo {
        op: BranchOp,
        rs1: u8,
        rs2: u8,
        name: &'a [u8],
    },
    /// Four bytes: a jump to the label, which leaves the address behind it in `rd`.
    JumpTo {
        rd: u8,
        name: &'a [u8],
    },
}

/// What a line says, or its first fault, within a segment or not. A line has no line feed.
/// `BadShape`, `UnknownName`, `BadNumber` and `OutOfRange` are the faults that a line may have.
pub fn read_statement(inside: bool, line: &[u8]) -> Result<Statement<'_>, AsmKind>
    ensures value { told result ≡ model.statement inside line.now }
    ensures range { IfOk result (λ s. IsInRange (said s)) }
{
    meaning(inside, content(line))
}

/// What a line without its comment says, or its first fault.
fn meaning(inside: bool, text: &[u8]) -> Result<Statement<'_>, AsmKind>
    ensures { told result ≡ model.meaning inside text.now }
{
    if is_blank(text) {
        return Ok(Statement::Nothing);
    }
    if is_label(text) {
        return label(inside, first_word(text));
    }
    named(inside, first_word(text), behind_word(text))
}

/// Whether a colon ends the only word.
fn is_label(text: &[u8]) -> bool
    ensures { result ≡ model.is_label (model_words.one_word text.now) }
{
    match one_word(text) {
        Some(word) => byte_at(word, word.len().saturating_sub(1)) == b':',
        None => false,
    }
}

/// `NAME:`, which stands in a segment.
fn label(inside: bool, word: &[u8]) -> Result<Statement<'_>, AsmKind>
    ensures { told result ≡ model.within inside (model.of_label word.now) }
{
    let name = &word[..word.len().saturating_sub(1)];
    if inside && is_name(name) {
        Ok(Statement::Label(name))
    } else {
        Err(AsmKind::BadShape)
    }
}

/// What a line with a directive or a mnemonic says, or its first fault.
fn named<'a>(inside: bool, word: &[u8], text: &'a [u8]) -> Result<Statement<'a>, AsmKind>
    ensures { told result ≡ model.of_directive inside (model.directive word.now) word.now text.now }
{
    match directive_named(word) {
        Some(found) => {
            if inside || !stands_in_segment(found) {
                directive(found, text)
            } else {
                Err(AsmKind::BadShape)
            }
        }
        None => by_mnemonic(inside, word, text),
    }
}

/// What a line with a mnemonic says, or its first fault. Instructions stand in a segment.
fn by_mnemonic<'a>(inside: bool, word: &[u8], text: &'a [u8]) -> Result<Statement<'a>, AsmKind>
    ensures { told result ≡ model.of_mnemonic inside (model.mnemonic word.now) text.now }
{
    match mnemonic_named(word) {
        Some(mnemonic) => {
            if inside {
                instruction(mnemonic, text)
            } else {
                Err(AsmKind::BadShape)
            }
        }
        None => Err(AsmKind::UnknownName),
    }
}
