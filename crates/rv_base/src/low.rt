//! The W forms, on the low 32 bits of words (RISC-V unprivileged manual, "Integer
//! Computational Instructions" of RV64I and "M Extension for Integer Multiplication
//! and Division"). Each extends its 32-bit result by that result's sign.
ghost use Rattle.std.specs.Prelude.{◌≡◌};
ghost use Rattle.instruction_model.specs.Word as word;

// The low 32 bits.
/// The low 32 bits.
fn low(a: u64) -> u32
    ensures { result ≡ word.low a }
{
    (a % (1 << 32)) as u32
}

// The low 32 bits, read as signed.
/// The low 32 bits, read as a signed number.
fn signed_low(a: u64) -> i32
    ensures { result ≡ word.signed_low a }
{
    low(a).cast_signed()
}

// The word of 32 bits, extended by their sign.
/// A 32-bit number extended by its sign to 64 bits.
fn sign_extended(a: u32) -> u64
    ensures { result ≡ word.sign_extended a }
{
    i64::from(a.cast_signed()).cast_unsigned()
}

/// The sum of the low 32 bits, modulo 2^32.
#[inline]
pub fn addw(a: u64, b: u64) -> u64
    ensures { result ≡ word.addw a b }
{
    sign_extended(low(a).wrapping_add(low(b)))
}

/// The difference of the low 32 bits, modulo 2^32.
#[inline]
pub fn subw(a: u64, b: u64) -> u64
    ensures { result ≡ word.subw a b }
{
    sign_extended(low(a).wrapping_sub(low(b)))
}

/// The low 32 bits of `a` shifted left by the low five bits of `b`, with zeros shifted in.
#[inline]
pub fn sllw(a: u64, b: u64) -> u64
    ensures { result ≡ word.sllw a b }
{
    sign_extended(low(a) << (b % 32))
}

/// The low 32 bits of `a` shifted right by the low five bits of `b`, with zeros shifted in.
#[inline]
pub fn srlw(a: u64, b: u64) -> u64
    ensures { result ≡ word.srlw a b }
{
    sign_extended(low(a) >> (b % 32))
}

/// The low 32 bits of `a` shifted right by the low five bits of `b`, with copies of
/// their sign shifted in.
#[inline]
pub fn sraw(a: u64, b: u64) -> u64
    ensures { result ≡ word.sraw a b }
{
    i64::from(signed_low(a) >> (b % 32)).cast_unsigned()
}

/// The product of the low 32 bits, modulo 2^32.
#[inline]
pub fn mulw(a: u64, b: u64) -> u64
    ensures { result ≡ word.mulw a b }
{
    sign_extended(low(a).wrapping_mul(low(b)))
}

/// The quotient of the low 32 bits, read as signed, cut towards 0. It is all ones
/// where those of `b` are 0, and the least 32-bit number where that is divided by -1.
#[inline]
pub fn divw(a: u64, b: u64) -> u64
    ensures { result ≡ word.divw a b }
{
    if low(b) == 0 {
        u64::MAX
    } else {
        sign_extended(signed_low(a).wrapping_div(signed_low(b)).cast_unsigned())
    }
}

/// The quotient of the low 32 bits, read as unsigned. It is all ones where those of
/// `b` are 0.
#[inline]
pub fn divuw(a: u64, b: u64) -> u64
    ensures { result ≡ word.divuw a b }
{
    let divisor = low(b);
    if divisor == 0 {
        u64::MAX
    } else {
        sign_extended(low(a) / divisor)
    }
}

/// The remainder of the low 32 bits, read as signed, with the sign of those of `a`. It
/// is the low 32 bits of `a` where those of `b` are 0, and 0 where the least 32-bit
/// number is divided by -1.
#[inline]
pub fn remw(a: u64, b: u64) -> u64
    ensures { result ≡ word.remw a b }
{
    if low(b) == 0 {
        sign_extended(low(a))
    } else {
        sign_extended(signed_low(a).wrapping_rem(signed_low(b)).cast_unsigned())
    }
}

/// The remainder of the low 32 bits, read as unsigned. It is the low 32 bits of `a`
/// where those of `b` are 0.
#[inline]
pub fn remuw(a: u64, b: u64) -> u64
    ensures { result ≡ word.remuw a b }
{
    let divisor = low(b);
    if divisor == 0 {
        sign_extended(low(a))
    } else {
        sign_extended(low(a) % divisor)
    }
}
