//! Where words end, and what they are.

ghost use Rattle.std.specs.Prelude.{◌≡◌, MatchOption, None, Some};
ghost use Rattle.std.specs.Str.{bytes_eq};
ghost use Rattle.reply_words.specs.Reading.{cut_of};

/// Whether the bytes are the text.
pub fn is(bytes: &[u8], text: &str) -> bool
    ensures { result ≡ bytes_eq bytes.now text.now }
{
    bytes == text.as_bytes()
}

/// The bytes before the first such mark, and those behind it; none where the mark isn't there.
pub fn cut(mark: u8, text: &[u8]) -> Option<(&[u8], &[u8])>
    ensures { MatchOption result (cut_of mark text.now ≡ None) (λ parts.
        cut_of mark text.now ≡ Some (record { word = parts.0.now; rest = parts.1.now })) }
{
    for (i, byte) in text.iter().enumerate() {
        if *byte == mark {
            return Some((&text[..i], &text[i + 1..]));
        }
    }
    None
}
