//! The names of labels.

ghost use Rattle.std.specs.Prelude.{◌≡◌};
ghost use Rattle.std.specs.List.{list_all};
ghost use Rattle.asm_lines.specs.Statement as model;

use asm_words::{byte_at, is_decimal_digit};

/// Whether it is a letter or `_`.
fn is_letter(b: u8) -> bool
    ensures { result ≡ model.is_letter b }
{
    b >= b'a' && b <= b'z' || b >= b'A' && b <= b'Z' || b == b'_'
}

/// Whether it is a letter, a digit or `_`.
fn is_name_byte(b: u8) -> bool
    ensures { result ≡ model.is_name_byte b }
{
    is_letter(b) || is_decimal_digit(b)
}

/// Whether all bytes are letters, digits or `_`.
fn are_name_bytes(word: &[u8]) -> bool
    ensures { result ≡ list_all model.is_name_byte word.now }
{
    word.iter().all(|b| is_name_byte(*b))
}

/// Whether a word may name a label: letters, digits and `_`, and no digit in front.
pub(crate) fn is_name(word: &[u8]) -> bool
    ensures { result ≡ model.is_name word.now }
{
    are_name_bytes(word) && is_letter(byte_at(word, 0))
}
