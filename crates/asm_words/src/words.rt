//! The parts of a line: words, which stand between spaces, and operands, between commas.

ghost use Rattle.std.specs.Prelude.{◌≡◌, ◌≤◌, ◌==◌, not, Some, length, slice_index};
ghost use Rattle.std.specs.Prelude.{option_copied, option_map};
ghost use Rattle.std.specs.List.{before_first, after_first, position_or_len, prefix_len};
ghost use Rattle.asm_words.specs.Seen.{two_seen, three_seen};
ghost use Rattle.asm_words.specs.Text as model;

// ---- places

/// The byte at an index, or 0 behind the end.
pub fn byte_at(text: &[u8], i: usize) -> u8
    ensures { result ≡ slice_index text.now i }
{
    if i < text.len() { text[i] } else { 0 }
}

/// How many bytes stand before the first that is `byte`, or all.
fn place_of(text: &[u8], byte: u8) -> usize
    ensures value { result ≡ position_or_len (λ b. b == byte) text.now }
    ensures within { result ≤ length text.now }
{
    for (i, b) in text.iter().enumerate() {
        if *b == byte {
            return i;
        }
    }
    text.len()
}

/// How many spaces the text begins with.
fn spaces_before(text: &[u8]) -> usize
    ensures value { result ≡ prefix_len model.is_space text.now }
    ensures within { result ≤ length text.now }
{
    for (i, b) in text.iter().enumerate() {
        if *b != b' ' {
            return i;
        }
    }
    text.len()
}

/// The text before the first `byte`, or all of it.
fn before(text: &[u8], byte: u8) -> &[u8]
    ensures value { result.now ≡ before_first (λ b. b == byte) text.now }
    ensures within { length result.now ≤ length text.now }
{
    &text[..place_of(text, byte)]
}

/// The text behind the first `byte`, or nothing where there is none.
fn after(text: &[u8], byte: u8) -> &[u8]
    ensures value { result.now ≡ after_first (λ b. b == byte) text.now }
    ensures within { length result.now ≤ length text.now }
{
    let place = place_of(text, byte);
    if place < text.len() {
        &text[place + 1..]
    } else {
        &text[place..]
    }
}

// ---- words

/// A line up to its comment, which a `#` begins.
pub fn content(line: &[u8]) -> &[u8]
    ensures { result.now ≡ model.content line.now }
{
    before(line, b'#')
}

/// Whether there are no words.
pub fn is_blank(text: &[u8]) -> bool
    ensures { result ≡ model.is_blank text.now }
{
    text.iter().all(|b| *b == b' ')
}

/// The text from its first word on.
fn from_word(text: &[u8]) -> &[u8]
    ensures { result.now ≡ model.from_word text.now }
{
    &text[spaces_before(text)..]
}

/// The first word, which is empty where there is none.
pub fn first_word(text: &[u8]) -> &[u8]
    ensures { result.now ≡ model.first_word text.now }
{
    before(from_word(text), b' ')
}

/// What follows the first word and the space behind it.
pub fn behind_word(text: &[u8]) -> &[u8]
    ensures { result.now ≡ model.behind_word text.now }
{
    after(from_word(text), b' ')
}

/// The only word, or none where there is another number of words.
pub fn one_word(text: &[u8]) -> Option<&[u8]>
    ensures { option_copied result ≡ model.one_word text.now }
{
    if !is_blank(text) && is_blank(behind_word(text)) {
        Some(first_word(text))
    } else {
        None
    }
}

// ---- operands

/// Whether there is a comma.
fn has_comma(text: &[u8]) -> bool
    ensures { result ≡ model.has_comma text.now }
{
    text.iter().any(|b| *b == b',')
}

/// Whether there is a parenthesis.
fn has_parenthesis(text: &[u8]) -> bool
    ensures { result ≡ model.has_parenthesis text.now }
{
    text.iter().any(|b| *b == b'(' || *b == b')')
}

/// The word that is the last operand, or none.
fn last_operand(text: &[u8]) -> Option<&[u8]>
    ensures { option_copied result ≡ model.last_operand text.now }
{
    if has_comma(text) {
        None
    } else {
        one_word(text)
    }
}

/// The word before the first comma, or none.
fn first_operand(text: &[u8]) -> Option<&[u8]>
    ensures { option_copied result ≡ model.first_operand text.now }
{
    if has_comma(text) {
        one_word(before(text, b','))
    } else {
        None
    }
}

/// What follows the first comma.
fn behind_comma(text: &[u8]) -> &[u8]
    ensures { result.now ≡ model.behind_comma text.now }
{
    after(text, b',')
}

/// The word, or none where it has a parenthesis.
fn plain(word: &[u8]) -> Option<&[u8]>
    ensures { option_copied result ≡ model.plain (Some word.now) }
{
    if has_parenthesis(word) {
        None
    } else {
        Some(word)
    }
}

/// The word before the first comma, without parentheses, or none.
fn plain_first(text: &[u8]) -> Option<&[u8]>
    ensures { option_copied result ≡ model.plain (model.first_operand text.now) }
{
    plain(first_operand(text)?)
}

/// The word that is the last operand, without parentheses, or none.
fn plain_last(text: &[u8]) -> Option<&[u8]>
    ensures { option_copied result ≡ model.plain (model.last_operand text.now) }
{
    plain(last_operand(text)?)
}

/// The operands of `a, b`, or none where the text is something else.
pub fn two_operands(text: &[u8]) -> Option<(&[u8], &[u8])>
    ensures { option_map two_seen result ≡ model.two_operands text.now }
{
    let first = plain_first(text)?;
    let second = plain_last(behind_comma(text))?;
    Some((first, second))
}

/// The operands of `a, b, c`, or none where the text is something else.
pub fn three_operands(text: &[u8]) -> Option<(&[u8], &[u8], &[u8])>
    ensures { option_map three_seen result ≡ model.three_operands text.now }
{
    let first = plain_first(text)?;
    let (second, third) = two_operands(behind_comma(text))?;
    Some((first, second, third))
}

/// The operands of `r, Z(B)`, or none where there are not two; the last may have parentheses.
pub fn address_operands(text: &[u8]) -> Option<(&[u8], &[u8])>
    ensures { option_map two_seen result ≡ model.address_operands text.now }
{
    let first = plain_first(text)?;
    let second = last_operand(behind_comma(text))?;
    Some((first, second))
}

// ---- an operand `Z(B)`

/// Whether the text is not empty and has no parenthesis.
fn is_inner(text: &[u8]) -> bool
    ensures { result ≡ model.is_inner text.now }
{
    !text.is_empty() && !has_parenthesis(text)
}

/// `Z` of `Z(B)`.
pub fn before_open(word: &[u8]) -> &[u8]
    ensures value { result.now ≡ model.before_open word.now }
    ensures within { length result.now ≤ length word.now }
{
    before(word, b'(')
}

/// `B` of `Z(B)`.
pub fn inner_register(word: &[u8]) -> &[u8]
    ensures { result.now ≡ model.inner_register word.now }
{
    before(after(word, b'('), b')')
}

/// Whether the operand is `Z(B)`, with two words without parentheses.
pub fn is_address(word: &[u8]) -> bool
    ensures { result ≡ model.is_address word.now }
{
    let number = before_open(word);
    let register = inner_register(word);
    is_inner(number) && is_inner(register) && word.len() == number.len() + register.len() + 2
}
