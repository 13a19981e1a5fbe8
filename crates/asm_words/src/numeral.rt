//! Numbers: decimal digits without a leading zero, or `0x` and hexadecimal digits, behind a sign or
//! not.

ghost use Rattle.std.specs.Prelude.{◌≡◌, ◌≤◌, pos, option_map, drop};
ghost use Rattle.std.specs.List.{list_all};
ghost use Rattle.asm_words.specs.Near.{near, near_size};
ghost use Rattle.asm_words.specs.Numbers as model;

use crate::words::byte_at;

/// The distance from 0 at which numbers are no longer told apart.
const FAR: u128 = 1 << 64;

// ---- digits

/// Whether it is `0` to `9`.
pub fn is_decimal_digit(b: u8) -> bool
    ensures { result ≡ model.is_decimal_digit b }
{
    b >= b'0' && b <= b'9'
}

/// Whether it is `a` to `f`.
fn is_lower_digit(b: u8) -> bool
    ensures { result ≡ model.is_lower_digit b }
{
    b >= b'a' && b <= b'f'
}

/// Whether it is `A` to `F`.
fn is_upper_digit(b: u8) -> bool
    ensures { result ≡ model.is_upper_digit b }
{
    b >= b'A' && b <= b'F'
}

/// Whether it is a hexadecimal digit, of either case.
fn is_hexadecimal_digit(b: u8) -> bool
    ensures { result ≡ model.is_hexadecimal_digit b }
{
    is_decimal_digit(b) || is_lower_digit(b) || is_upper_digit(b)
}

/// What a hexadecimal digit is worth.
fn digit_value(b: u8) -> u8
    ensures { result ≡ model.digit_value b }
{
    if is_lower_digit(b) {
        b - b'a' + 10
    } else if is_upper_digit(b) {
        b - b'A' + 10
    } else {
        b.saturating_sub(b'0')
    }
}

/// What digits are worth, at most `FAR`. They are in the base 10 or 16.
fn value_of(base: u8, digits: &[u8]) -> u128
    requires some { 1 ≤ base }
    requires small { base ≤ 16 }
    ensures { result ≡ near_size (model.value_behind base 0 digits.now) }
{
    let mut value = 0u128;
    for b in digits {
        let next = value * base as u128 + digit_value(*b) as u128;
        value = next.min(FAR);
    }
    value
}

// ---- numbers without a sign

/// Whether all bytes are hexadecimal digits.
fn are_hexadecimal(digits: &[u8]) -> bool
    ensures { result ≡ list_all model.is_hexadecimal_digit digits.now }
{
    digits.iter().all(|b| is_hexadecimal_digit(*b))
}

/// Whether there are digits, and all are hexadecimal.
fn is_hexadecimal_run(digits: &[u8]) -> bool
    ensures { result ≡ model.is_hexadecimal_run digits.now }
{
    !digits.is_empty() && are_hexadecimal(digits)
}

/// What hexadecimal digits are worth, at most `FAR`, or none where there are other bytes or no
/// digits.
fn hexadecimal_value(digits: &[u8]) -> Option<u128>
    ensures { result ≡ option_map near_size (model.hexadecimal_value digits.now) }
{
    if is_hexadecimal_run(digits) {
        Some(value_of(16, digits))
    } else {
        None
    }
}

/// Whether all bytes are decimal digits.
fn are_decimal(digits: &[u8]) -> bool
    ensures { result ≡ list_all model.is_decimal_digit digits.now }
{
    digits.iter().all(|b| is_decimal_digit(*b))
}

/// Whether there are digits, and all are decimal.
fn is_decimal_run(digits: &[u8]) -> bool
    ensures { result ≡ model.is_decimal_run digits.now }
{
    !digits.is_empty() && are_decimal(digits)
}

/// Whether no digit stands behind a zero in front.
fn has_no_leading_zero(digits: &[u8]) -> bool
    ensures { result ≡ model.has_no_leading_zero digits.now }
{
    digits.len() == 1 || byte_at(digits, 0) > b'0'
}

/// What decimal digits are worth, at most `FAR`, or none where they are no number.
pub(crate) fn decimal_value(digits: &[u8]) -> Option<u128>
    ensures { result ≡ option_map near_size (model.decimal_value digits.now) }
{
    if is_decimal_run(digits) && has_no_leading_zero(digits) {
        Some(value_of(10, digits))
    } else {
        None
    }
}

/// The text behind so many bytes, or nothing where there are fewer.
pub(crate) fn behind(text: &[u8], count: usize) -> &[u8]
    ensures { result.now ≡ drop count text.now }
{
    if count < text.len() {
        &text[count..]
    } else {
        &text[text.len()..]
    }
}

/// The number that a word without a sign spells, at most `FAR`, or none.
fn magnitude(word: &[u8]) -> Option<u128>
    ensures { result ≡ option_map near_size (model.magnitude word.now) }
{
    if byte_at(word, 0) == b'0' && byte_at(word, 1) == b'x' {
        hexadecimal_value(behind(word, 2))
    } else {
        decimal_value(word)
    }
}

// ---- numbers

/// The number that a word without a sign spells, or none.
fn positive(word: &[u8]) -> Option<i128>
    ensures { result ≡ option_map near (option_map pos (model.magnitude word.now)) }
{
    let size = magnitude(word)?;
    Some(size as i128)
}

/// The number that a word spells behind a `-`, or none.
fn negative(word: &[u8]) -> Option<i128>
    ensures { result ≡ option_map near (option_map model.negation (model.magnitude word.now)) }
{
    let size = magnitude(word)?;
    Some(-(size as i128))
}

/// The number that a word spells, or none. A number that is farther than 2^64 from 0 is taken to be
/// so far; no number with a place in a line is.
pub fn number(word: &[u8]) -> Option<i128>
    ensures { result ≡ option_map near (model.number word.now) }
{
    if byte_at(word, 0) == b'-' {
        negative(behind(word, 1))
    } else {
        positive(word)
    }
}
