//! Directives: what stands in a program beside instructions.

ghost use Rattle.std.specs.Prelude.{◌≡◌, ◌-◌, ◌^◌, pos, negsuc, IfOk};
ghost use Rattle.instruction_model.specs.Word.{modulo_two_to};
ghost use Rattle.asm_lines.specs.Ranges.{IsNearRange, IsWithin};
ghost use Rattle.asm_lines.specs.Said.{told};
ghost use Rattle.asm_lines.specs.Statement as model;
ghost use Rattle.asm_lines.specs.declared.mnemonic.Directive.TheVariants as directives;

use crate::label::is_name;
use crate::operand::{number_in, number_of, ranged};
use crate::{AsmKind, Data, Directive, Statement};
use asm_words::{behind_word, first_word, is_blank, one_word};

/// The highest number of 64 bits.
const LAST: i128 = (1 << 64) - 1;

/// What a directive says, from the text of its operands, or its first fault.
pub(crate) fn directive(directive: Directive, text: &[u8]) -> Result<Statement<'_>, AsmKind>
    ensures { told result ≡ model.directive_meaning directive text.now }
{
    match directive {
        Directive::Segment => segment(text),
        Directive::Entry => entry(text),
        Directive::Word => word(text),
        Directive::Byte => byte(text),
        Directive::Zero => zeros(text),
    }
}

/// Whether a directive stands in a segment only, as data do.
pub(crate) fn stands_in_segment(directive: Directive) -> bool
    ensures { result ≡ model.stands_in_segment directive }
{
    match directive {
        Directive::Segment | Directive::Entry => false,
        Directive::Word | Directive::Byte | Directive::Zero => true,
    }
}

/// The flags that letters of `rwx` in this order name, 4 for read, 2 for write and 1 for execute,
/// or none.
fn flags(word: &[u8]) -> Option<u32>
    ensures { result ≡ model.flags word.now }
{
    match word {
        b"x" => Some(1),
        b"w" => Some(2),
        b"wx" => Some(3),
        b"r" => Some(4),
        b"rx" => Some(5),
        b"rw" => Some(6),
        b"rwx" => Some(7),
        _ => None,
    }
}

/// Whether there are three words, and no more.
fn has_three_words(text: &[u8]) -> bool
    ensures { result ≡ model.has_three_words text.now }
{
    let second = behind_word(text);
    let third = behind_word(second);
    !is_blank(text) && !is_blank(second) && !is_blank(third) && is_blank(behind_word(third))
}

/// A segment of an address and a size, both below 2^64; the size isn't 0.
fn segment_at<'a>(flags: u32, at: i128, size: i128) -> Result<Statement<'a>, AsmKind>
    ensures { told result ≡ model.segment_at flags at size }
{
    let at = ranged(0, LAST, at)?;
    let size = ranged(1, LAST, size)?;
    Ok(Statement::Segment {
        at: at.unsigned_abs() as u64,
        flags,
        size: size.unsigned_abs() as u64,
    })
}

/// A segment with an address and a size that words spell.
fn segment_with<'a>(flags: u32, at: &[u8], size: &[u8]) -> Result<Statement<'a>, AsmKind>
    ensures { told result ≡ model.segment_with flags at.now size.now }
{
    let address = number_of(at)?;
    let count = number_of(size)?;
    segment_at(flags, address, count)
}

/// `ADDRESS FLAGS SIZE`.
fn segment(text: &[u8]) -> Result<Statement<'_>, AsmKind>
    ensures { told result ≡ model.of_segment text.now }
{
    if !has_three_words(text) {
        return Err(AsmKind::BadShape);
    }
    let rest = behind_word(text);
    match flags(first_word(rest)) {
        Some(flags) => segment_with(flags, first_word(text), first_word(behind_word(rest))),
        None => Err(AsmKind::BadShape),
    }
}

/// `NAME`.
fn entry(text: &[u8]) -> Result<Statement<'_>, AsmKind>
    ensures { told result ≡ model.of_entry text.now }
{
    match one_word(text) {
        Some(name) if is_name(name) => Ok(Statement::Entry(name)),
        _ => Err(AsmKind::BadShape),
    }
}

/// The number of a range that is the only word, or `BadShape`, `BadNumber` or `OutOfRange`.
fn only_number(low: i128, high: i128, text: &[u8]) -> Result<i128, AsmKind>
    requires { IsNearRange low high }
    ensures value { result ≡ model.only_number low high text.now }
    ensures range { IfOk result (λ z. IsWithin low high z) }
{
    match one_word(text) {
        Some(word) => number_in(low, high, word),
        None => Err(AsmKind::BadShape),
    }
}

/// A number of 32 bits, signed or not, as its form in two's complement.
fn low_word(z: i128) -> u32
    requires { IsWithin (negsuc (2 ^ 31 - 1)) (pos (2 ^ 32 - 1)) z }
    ensures { result ≡ modulo_two_to 32 z }
{
    if z < 0 {
        (z + (1 << 32)) as u32
    } else {
        z as u32
    }
}

/// A number of eight bits, signed or not, as its form in two's complement.
fn low_byte(z: i128) -> u8
    requires { IsWithin (negsuc 127) (pos 255) z }
    ensures { result ≡ modulo_two_to 8 z }
{
    if z < 0 { (z + 256) as u8 } else { z as u8 }
}

/// Four bytes: a number from -2^31 to 2^32 - 1.
fn word(text: &[u8]) -> Result<Statement<'_>, AsmKind>
    ensures { told result ≡ model.directive_meaning directives.Word text.now }
{
    let z = only_number(-(1 << 31), (1 << 32) - 1, text)?;
    Ok(Statement::Data(Data::Word(low_word(z))))
}

/// A byte: a number from -128 to 255.
fn byte(text: &[u8]) -> Result<Statement<'_>, AsmKind>
    ensures { told result ≡ model.directive_meaning directives.Byte text.now }
{
    let z = only_number(-128, 255, text)?;
    Ok(Statement::Data(Data::Byte(low_byte(z))))
}

/// So many bytes 0, below 2^64.
fn zeros(text: &[u8]) -> Result<Statement<'_>, AsmKind>
    ensures { told result ≡ model.directive_meaning directives.Zero text.now }
{
    let z = only_number(0, LAST, text)?;
    Ok(Statement::Data(Data::Zeros(z.unsigned_abs() as u64)))
}
