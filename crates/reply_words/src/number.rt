//! Numbers, read without leading zeros.

ghost use Rattle.std.specs.Prelude.{◌≡◌, ◌≤◌, ◌<◌, ℕ, IfSome};
ghost use Rattle.reply_words.specs.Reading as model;

/// The number that a digit is, 0 to 9 or a small a to f; 16 where the byte is none.
pub fn low_digit(c: u8) -> u8
    ensures { result ≡ model.low_digit c }
{
    match c {
        b'0'..=b'9' => c - b'0',
        b'a'..=b'f' => c - b'a' + 10,
        _ => 16,
    }
}

/// The number that digits write after those of `value`; none exactly where a byte is no digit of
/// the base or the number doesn't fit 64 bits.
#[tactic(auto, using(crate::proofs::Numerals::too_large))]
fn digits(base: u64, text: &[u8], value: u64) -> Option<u64>
    requires { 0 < base }
    ensures { result ≡ model.fitting (model.digits_of base value text.now) }
{
    match text {
        [] => Some(value),
        [first, rest @ ..] => {
            let digit = u64::from(low_digit(*first));
            if digit >= base {
                return None;
            }
            let value = value.checked_mul(base)?.checked_add(digit)?;
            digits(base, rest, value)
        }
    }
}

/// The number of at most `most` that a word is in the base, if it is one: digits with no zero
/// before them, where a letter among them is small.
#[tactic(auto, unfolding(crate::specs::Reading::number_of))]
fn read_number(base: u64, most: u64, word: &[u8]) -> Option<u64>
    requires { 0 < base }
    ensures value { result ≡ model.number_of base most word.now }
    ensures bound { IfSome result (λ n. n ≤ most) }
{
    match word {
        [] => return None,
        [b'0'] => {}
        [b'0', ..] => return None,
        [_, ..] => {}
    }
    let value = digits(base, word, 0)?;
    if value <= most { Some(value) } else { None }
}

/// The number of at most `most` that a word is in decimal, if it is one: digits with no zero before
/// them.
pub fn read_decimal(most: u64, word: &[u8]) -> Option<u64>
    ensures value { result ≡ model.number_of 10 most word.now }
    ensures bound { IfSome result (λ n. n ≤ most) }
{
    read_number(10, most, word)
}

/// The number of at most `most` that a word is in hexadecimal, if it is one: digits with no zero
/// before them, where letters are small.
pub fn read_hexadecimal(most: u64, word: &[u8]) -> Option<u64>
    ensures value { result ≡ model.number_of 16 most word.now }
    ensures bound { IfSome result (λ n. n ≤ most) }
{
    read_number(16, most, word)
}
