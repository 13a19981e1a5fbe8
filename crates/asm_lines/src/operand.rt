//! Operands: registers, and numbers of a range.

ghost use Rattle.std.specs.Prelude.{◌≡◌, ◌%◌, pos, negsuc, unsigned_abs, IfOk};
ghost use Rattle.instruction_model.specs.InstructionWord.{IsRegister};
ghost use Rattle.asm_lines.specs.Ranges.{near_of, IsNearRange, IsWithin};
ghost use Rattle.asm_lines.specs.Statement as model;

use crate::AsmKind;
use asm_words::{
    address_operands, before_open, inner_register, is_address, number, register_named,
    three_operands, two_operands,
};

// ---- one operand

/// The register that a word names, or `UnknownName`.
pub(crate) fn register_of(word: &[u8]) -> Result<u8, AsmKind>
    ensures value { result ≡ model.register_of word.now }
    ensures range { IfOk result (λ r. IsRegister r) }
{
    register_named(word).ok_or(AsmKind::UnknownName)
}

/// The number that a word spells, or `BadNumber`. One that is farther than 2^64 from 0 is taken to
/// be so far.
pub(crate) fn number_of(word: &[u8]) -> Result<i128, AsmKind>
    ensures { result ≡ near_of (model.number_of word.now) }
{
    number(word).ok_or(AsmKind::BadNumber)
}

/// The number, where it is in a range with both its ends, or `OutOfRange`.
pub(crate) fn ranged(low: i128, high: i128, z: i128) -> Result<i128, AsmKind>
    ensures value { result ≡ model.ranged low high z }
    ensures range { IfOk result (λ n. IsWithin low high n) }
{
    if low <= z && z <= high {
        Ok(z)
    } else {
        Err(AsmKind::OutOfRange)
    }
}

/// The number of a range that a word spells, or `BadNumber` or `OutOfRange`.
pub(crate) fn number_in(low: i128, high: i128, word: &[u8]) -> Result<i128, AsmKind>
    requires { IsNearRange low high }
    ensures value { result ≡ model.number_in low high word.now }
    ensures range { IfOk result (λ z. IsWithin low high z) }
{
    let z = number_of(word)?;
    ranged(low, high, z)
}

/// The number of a range within 32 bits that a word spells, or `BadNumber` or `OutOfRange`.
fn small_number_in(low: i32, high: i32, word: &[u8]) -> Result<i32, AsmKind>
    ensures value { result ≡ model.number_in low high word.now }
    ensures range { IfOk result (λ z. IsWithin low high z) }
{
    let z = number_in(i128::from(low), i128::from(high), word)?;
    Ok(z as i32)
}

/// Whether the number is even.
fn is_even(z: i32) -> bool
    ensures { result ≡ model.is_even z }
{
    z.unsigned_abs() % 2 == 0
}

/// The even number of a range that a word spells, or `BadNumber` or `OutOfRange`.
pub(crate) fn even_number_in(low: i32, high: i32, word: &[u8]) -> Result<i32, AsmKind>
    ensures value { result ≡ model.even_number_in low high word.now }
    ensures range { IfOk result (λ z. IsWithin low high z) }
    ensures even { IfOk result (λ z. unsigned_abs z % 2 ≡ 0) }
{
    let z = small_number_in(low, high, word)?;
    if is_even(z) {
        Ok(z)
    } else {
        Err(AsmKind::OutOfRange)
    }
}

// ---- all operands of an instruction

/// The operands of `rd, rs1, rs2`, or `BadShape` or `UnknownName`.
pub(crate) fn three_registers(text: &[u8]) -> Result<(u8, u8, u8), AsmKind>
    ensures value { result ≡ model.three_registers text.now }
    ensures range { IfOk result (λ r. IsRegister r.0 × IsRegister r.1 × IsRegister r.2) }
{
    let Some((first, second, third)) = three_operands(text) else {
        return Err(AsmKind::BadShape);
    };
    let a = register_of(first)?;
    let b = register_of(second)?;
    let c = register_of(third)?;
    Ok((a, b, c))
}

/// The operands of `rd, rs1, n`, where `n` is of a range, or any fault.
pub(crate) fn two_registers(low: i32, high: i32, text: &[u8]) -> Result<(u8, u8, i32), AsmKind>
    ensures value { result ≡ model.two_registers low high text.now }
    ensures range { IfOk result (λ r. IsRegister r.0 × IsRegister r.1 × IsWithin low high r.2) }
{
    let Some((first, second, third)) = three_operands(text) else {
        return Err(AsmKind::BadShape);
    };
    let a = register_of(first)?;
    let b = register_of(second)?;
    let z = small_number_in(low, high, third)?;
    Ok((a, b, z))
}

/// The operands of `rd, n`, where `n` is of a range, or any fault.
pub(crate) fn one_register(low: i32, high: i32, text: &[u8]) -> Result<(u8, i32), AsmKind>
    ensures value { result ≡ model.one_register low high text.now }
    ensures range { IfOk result (λ r. IsRegister r.0 × IsWithin low high r.1) }
{
    let Some((first, second)) = two_operands(text) else {
        return Err(AsmKind::BadShape);
    };
    let a = register_of(first)?;
    let z = small_number_in(low, high, second)?;
    Ok((a, z))
}

/// The operands `r` and `imm(rs1)`, as the registers and the number, or any fault but of shape.
fn address_in(word: &[u8], rest: &[u8]) -> Result<(u8, u8, i32), AsmKind>
    ensures value { result ≡ model.address_in word.now rest.now }
    ensures range { IfOk result (λ r. IsRegister r.0 × IsRegister r.1
        × IsWithin (negsuc 2047) (pos 2047) r.2) }
{
    let a = register_of(word)?;
    let b = register_of(inner_register(rest))?;
    let z = small_number_in(-2048, 2047, before_open(rest))?;
    Ok((a, b, z))
}

/// The operands of `r, imm(rs1)`, as the registers and the number, or any fault.
pub(crate) fn register_and_address(text: &[u8]) -> Result<(u8, u8, i32), AsmKind>
    ensures value { result ≡ model.register_and_address text.now }
    ensures range { IfOk result (λ r. IsRegister r.0 × IsRegister r.1
        × IsWithin (negsuc 2047) (pos 2047) r.2) }
{
    let Some((word, rest)) = address_operands(text) else {
        return Err(AsmKind::BadShape);
    };
    if is_address(rest) {
        address_in(word, rest)
    } else {
        Err(AsmKind::BadShape)
    }
}
