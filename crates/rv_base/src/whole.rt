//! The operations of RV64I on whole words (RISC-V unprivileged manual, "Integer
//! Computational Instructions" of RV32I and of RV64I).
ghost use Rattle.std.specs.Prelude.{◌≡◌};
ghost use Rattle.instruction_model.specs.Word as word;

/// The sum modulo 2^64.
#[inline]
pub fn add(a: u64, b: u64) -> u64
    ensures { result ≡ word.add a b }
{
    a.wrapping_add(b)
}

/// The difference modulo 2^64.
#[inline]
pub fn sub(a: u64, b: u64) -> u64
    ensures { result ≡ word.sub a b }
{
    a.wrapping_sub(b)
}

/// `a` shifted left by the low six bits of `b`, with zeros shifted in.
#[inline]
pub fn sll(a: u64, b: u64) -> u64
    ensures { result ≡ word.sll a b }
{
    a << (b % 64)
}

/// `a` shifted right by the low six bits of `b`, with zeros shifted in.
#[inline]
pub fn srl(a: u64, b: u64) -> u64
    ensures { result ≡ word.srl a b }
{
    a >> (b % 64)
}

/// `a` shifted right by the low six bits of `b`, with copies of its sign shifted in.
#[inline]
pub fn sra(a: u64, b: u64) -> u64
    ensures { result ≡ word.sra a b }
{
    (a.cast_signed() >> (b % 64)).cast_unsigned()
}

/// 1 where `a` is below `b`, both read as signed, and 0 elsewhere.
#[inline]
pub fn slt(a: u64, b: u64) -> u64
    ensures { result ≡ word.slt a b }
{
    u64::from(a.cast_signed() < b.cast_signed())
}

/// 1 where `a` is below `b`, both read as unsigned, and 0 elsewhere.
#[inline]
pub fn sltu(a: u64, b: u64) -> u64
    ensures { result ≡ word.sltu a b }
{
    u64::from(a < b)
}

/// Bitwise and.
#[inline]
pub fn and(a: u64, b: u64) -> u64
    ensures { result ≡ word.and a b }
{
    a & b
}

/// Bitwise or.
#[inline]
pub fn or(a: u64, b: u64) -> u64
    ensures { result ≡ word.or a b }
{
    a | b
}

/// Bitwise exclusive or.
#[inline]
pub fn xor(a: u64, b: u64) -> u64
    ensures { result ≡ word.xor a b }
{
    a ^ b
}
