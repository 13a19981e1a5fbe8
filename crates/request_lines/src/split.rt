//! The first line of a text.

ghost use Rattle.std.specs.Prelude.{◌≡◌, ◌≤◌, ◌<◌, ◌∷◌, length};
ghost use Rattle.std.specs.List.{position_or_len};
ghost use Rattle.request_lines.specs.LineEnd.{line_end};
ghost use Rattle.request_lines.specs.Requests.{is_feed, lines_of};

/// How many bytes stand before the first line feed, or all.
fn place_of_feed(text: &[u8]) -> usize
    ensures value { result ≡ position_or_len is_feed text.now }
    ensures within { result ≤ length text.now }
{
    for (i, byte) in text.iter().enumerate() {
        if *byte == b'\n' {
            return i;
        }
    }
    text.len()
}

/// How many bytes the line before a line feed has: a carriage return directly before the line feed
/// is no part of it.
fn line_size(text: &[u8], feed: usize) -> usize
    requires { feed ≤ length text.now }
    ensures size { result ≡ line_end text.now feed }
    ensures within { result ≤ feed }
{
    if feed > 0 && text[feed - 1] == b'\r' {
        feed - 1
    } else {
        feed
    }
}

/// The first line of a text that isn't empty, and what stands behind its line feed.
pub fn split_line(text: &[u8]) -> (&[u8], &[u8])
    requires { 0 < length text.now }
    ensures lines { lines_of text.now ≡ result.0.now ∷ lines_of result.1.now }
    ensures shorter { length result.1.now < length text.now }
{
    let feed = place_of_feed(text);
    if feed < text.len() {
        let size = line_size(text, feed);
        (&text[..size], &text[feed + 1..])
    } else {
        (text, &text[feed..])
    }
}
