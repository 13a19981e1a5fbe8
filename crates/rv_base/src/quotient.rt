//! Quotients and remainders of whole words (RISC-V unprivileged manual, "Division
//! Operations"). Each has a value at every pair of words, a divisor of 0 included.
ghost use Rattle.std.specs.Prelude.{◌≡◌};
ghost use Rattle.instruction_model.specs.Word as word;

/// The quotient of `a` and `b`, both read as signed, cut towards 0. It is all ones
/// where `b` is 0, and the least number where that is divided by -1.
#[inline]
pub fn div(a: u64, b: u64) -> u64
    ensures { result ≡ word.div a b }
{
    if b == 0 {
        u64::MAX
    } else {
        a.cast_signed()
            .wrapping_div(b.cast_signed())
            .cast_unsigned()
    }
}

/// The quotient of `a` and `b`, both read as unsigned. It is all ones where `b` is 0.
#[inline]
pub fn divu(a: u64, b: u64) -> u64
    ensures { result ≡ word.divu a b }
{
    if b == 0 { u64::MAX } else { a / b }
}

/// The remainder of `a` by `b`, both read as signed, with the sign of `a`. It is `a`
/// where `b` is 0, and 0 where the least number is divided by -1.
#[inline]
pub fn rem(a: u64, b: u64) -> u64
    ensures { result ≡ word.rem a b }
{
    if b == 0 {
        a
    } else {
        a.cast_signed()
            .wrapping_rem(b.cast_signed())
            .cast_unsigned()
    }
}

/// The remainder of `a` by `b`, both read as unsigned. It is `a` where `b` is 0.
#[inline]
pub fn remu(a: u64, b: u64) -> u64
    ensures { result ≡ word.remu a b }
{
    if b == 0 { a } else { a % b }
}
