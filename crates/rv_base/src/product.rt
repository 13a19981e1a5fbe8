//! Products of whole words (RISC-V unprivileged manual, "Multiplication Operations").
ghost use Rattle.std.specs.Prelude.{◌≡◌};
ghost use Rattle.std.specs.Int.{int_shr};
ghost use Rattle.instruction_model.specs.Word as word;

/// The low 64 bits of the product.
#[inline]
pub fn mul(a: u64, b: u64) -> u64
    ensures { result ≡ word.mul a b }
{
    a.wrapping_mul(b)
}

// The high 64 bits of a product.
/// The upper 64 bits of a product of 128 bits.
fn high(product: i128) -> u64
    ensures { result ≡ word.as_word (int_shr product 64) }
{
    (product.cast_unsigned() >> 64) as u64
}

/// The high 64 bits of the product of `a` and `b`, both read as signed.
#[inline]
pub fn mulh(a: u64, b: u64) -> u64
    ensures { result ≡ word.mulh a b }
{
    high(i128::from(a.cast_signed()) * i128::from(b.cast_signed()))
}

/// The high 64 bits of the product of `a`, read as signed, and `b`, read as unsigned.
#[inline]
pub fn mulhsu(a: u64, b: u64) -> u64
    ensures { result ≡ word.mulhsu a b }
{
    high(i128::from(a.cast_signed()) * i128::from(b))
}

/// The high 64 bits of the product of `a` and `b`, both read as unsigned.
#[inline]
pub fn mulhu(a: u64, b: u64) -> u64
    ensures { result ≡ word.mulhu a b }
{
    ((u128::from(a) * u128::from(b)) >> 64) as u64
}
