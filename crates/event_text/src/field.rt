//! The fields of a line: numbers without leading zeros, a space before each.

ghost use Rattle.std.specs.Prelude.{◌≡◌, ℕ, ◌≤◌, IfSome, MatchOption, Some, None, true, length};
ghost use Rattle.event_text.specs.Reading as model;
ghost use Rattle.event_text.specs.Reading.{is_in};

/// Which numbers a field has.
#[derive(Clone, Copy)]
pub enum Field {
    /// Those of 16 bits: a layer, a function.
    Short,
    /// Those of 32 bits: a request, a count.
    Count,
    /// Those of 32 bits but 0: a context, or frames where there are some.
    Positive,
    /// Those of 64 bits: a clock.
    Long,
}

impl Field {
    /// Whether the field may have this number.
    fn has(self, n: u64) -> bool
        ensures { result ≡ is_in self n }
    {
        match self {
            Field::Short => n <= u64::from(u16::MAX),
            Field::Count => n <= u64::from(u32::MAX),
            Field::Positive => n >= 1 && n <= u64::from(u32::MAX),
            Field::Long => true,
        }
    }
}

/// The number that digits write after those of `value`; none exactly where a byte is no digit or
/// the number doesn't fit 64 bits.
#[tactic(auto, using(crate::proofs::Digits::too_large))]
fn digits(text: &[u8], value: u64) -> Option<u64>
    ensures { result ≡ model.fitting (model.digits_of value text.now) }
{
    match text {
        [] => Some(value),
        [first, rest @ ..] => {
            if !first.is_ascii_digit() {
                return None;
            }
            let value = value
                .checked_mul(10)?
                .checked_add(u64::from(*first - b'0'))?;
            digits(rest, value)
        }
    }
}

/// The number of a field that these bytes are, if they are one.
#[tactic(auto, unfolding(crate::specs::Reading::decimal_of))]
fn decimal(field: Field, word: &[u8]) -> Option<u64>
    ensures value { result ≡ model.decimal_of field word.now }
    ensures bound { IfSome result (λ n. model.is_in field n ≡ true) }
{
    match word {
        [] => return None,
        [b'0'] => {}
        [b'0', ..] => return None,
        [_, ..] => {}
    }
    let value = digits(word, 0)?;
    if field.has(value) { Some(value) } else { None }
}

/// How many bytes stand before the first space.
#[tactic(auto, using(crate::proofs::Words::first), unfolding(crate::specs::Reading::word_size))]
pub fn word_size(text: &[u8]) -> usize
    ensures size { result ≡ model.word_size text.now }
    ensures within { result ≤ length text.now }
{
    for (i, byte) in text.iter().enumerate() {
        if *byte == b' ' {
            return i;
        }
    }
    text.len()
}

/// A number after a space, up to the next space or the end, and what follows it.
#[tactic(auto, unfolding(crate::specs::Reading::number_of))]
pub fn number(field: Field, text: &[u8]) -> Option<(u64, &[u8])>
    ensures value { MatchOption result (model.number_of field text.now ≡ None) (λ taken.
        model.number_of field text.now
        ≡ Some (record { value = taken.0; rest = taken.1.now })) }
    ensures bound { IfSome result (λ taken. model.is_in field taken.0 ≡ true) }
{
    match text {
        [b' ', rest @ ..] => {
            let size = word_size(rest);
            let value = decimal(field, &rest[..size])?;
            Some((value, &rest[size..]))
        }
        _ => None,
    }
}

/// One number, and nothing after it.
#[tactic(auto, unfolding(crate::specs::Reading::one_of))]
pub fn one(a: Field, text: &[u8]) -> Option<u64>
    ensures value { result ≡ model.one_of a text.now }
    ensures bound { IfSome result (λ n. model.is_in a n ≡ true) }
{
    let (value, rest) = number(a, text)?;
    if rest.is_empty() { Some(value) } else { None }
}

/// Two numbers, and nothing after them.
#[tactic(auto, unfolding(crate::specs::Reading::two_of))]
pub fn two(a: Field, b: Field, text: &[u8]) -> Option<(u64, u64)>
    ensures value { result ≡ model.two_of a b text.now }
    ensures first { IfSome result (λ pair. model.is_in a pair.0 ≡ true) }
    ensures second { IfSome result (λ pair. model.is_in b pair.1 ≡ true) }
{
    let (value, rest) = number(a, text)?;
    let last = one(b, rest)?;
    Some((value, last))
}

/// Three numbers, and nothing after them.
#[tactic(auto, unfolding(crate::specs::Reading::three_of))]
pub fn three(a: Field, b: Field, c: Field, text: &[u8]) -> Option<(u64, u64, u64)>
    ensures value { result ≡ model.three_of a b c text.now }
    ensures first { IfSome result (λ all. model.is_in a all.0 ≡ true) }
    ensures second { IfSome result (λ all. model.is_in b all.1 ≡ true) }
    ensures third { IfSome result (λ all. model.is_in c all.2 ≡ true) }
{
    let (value, rest) = number(a, text)?;
    let (middle, last) = two(b, c, rest)?;
    Some((value, middle, last))
}
