//! Fields of words: runs of bits, and signed numbers in two's complement.

ghost use Rattle.std.specs.Prelude.{◌≡◌, ◌<◌, ◌≤◌, ◌+◌, ◌-◌, ◌^◌, ◌↔◌, pos, ◌≤ℤ◌, ◌<ℤ◌, ◌-ℤ◌};
ghost use Rattle.std.specs.Prelude.{IsTrue};
ghost use Rattle.instruction_model.specs.Word.{signed_field};
ghost use Rattle.instruction_model.specs.InstructionWord.{bits, FitsBits};
ghost use Rattle.instruction_model.specs.Word.{modulo_two_to};

/// Bits `high` down to `low` of a word, as a number.
#[inline]
#[tactic(auto, using(crate::proofs::Shifts::bits_shifts))]
pub(crate) fn bits(w: u32, high: u32, low: u32) -> u32
    requires ordered { low ≤ high }
    requires within { high < 32 }
    ensures { result ≡ bits w high low }
{
    (w << (31 - high)) >> (31 - high + low)
}

/// The signed number whose two's complement form of `width` bits is `n`.
#[inline]
#[tactic(auto, using(crate::proofs::Shifts::small_power))]
pub(crate) fn signed(n: u32, width: u32) -> i32
    requires narrow { width ≤ 30 }
    requires some_bits { 1 ≤ width }
    requires within { n < 2 ^ width }
    ensures { result ≡ signed_field width n }
{
    let half = 1u32 << (width - 1);
    if n < half {
        n as i32
    } else {
        n as i32 - (2 * half) as i32
    }
}

/// The two's complement form of `width` bits of `z`.
#[inline]
#[tactic(auto, using(crate::proofs::Shifts::small_power))]
pub(crate) fn unsigned(z: i32, width: u32) -> u32
    requires narrow { width ≤ 30 }
    requires some_bits { 1 ≤ width }
    requires within { FitsBits width z }
    ensures { result ≡ modulo_two_to width z }
{
    if z < 0 {
        (z + (1u32 << width) as i32) as u32
    } else {
        z as u32
    }
}

/// Whether `z` is at least `-limit` and less than `limit`.
#[inline]
pub(crate) fn is_within(z: i32, limit: i32) -> bool
    requires { pos 0 ≤ℤ limit }
    ensures { IsTrue result ↔ (((pos 0 -ℤ limit) ≤ℤ z) × (z <ℤ limit)) }
{
    -limit <= z && z < limit
}
