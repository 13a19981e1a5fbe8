//! Lines of a text.

ghost use Rattle.std.specs.Prelude.{◌≡◌, ◌≤◌, ◌<◌, ◌==◌, length};
ghost use Rattle.std.specs.List.{before_first, after_first, position_or_len};

/// How many bytes stand before the first line feed, or all.
fn place_of_feed(text: &[u8]) -> usize
    ensures value { result ≡ position_or_len (λ b. b == 10) text.now }
    ensures within { result ≤ length text.now }
{
    for (i, byte) in text.iter().enumerate() {
        if *byte == b'\n' {
            return i;
        }
    }
    text.len()
}

/// What stands before the first line feed of a text, and what stands behind it.
pub fn split_line(text: &[u8]) -> (&[u8], &[u8])
    ensures line { result.0.now ≡ before_first (λ b. b == 10) text.now }
    ensures behind { result.1.now ≡ after_first (λ b. b == 10) text.now }
{
    let place = place_of_feed(text);
    if place < text.len() {
        (&text[..place], &text[place + 1..])
    } else {
        (&text[..place], &text[place..])
    }
}
