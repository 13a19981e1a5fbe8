//! The two words of a line, and the function that the first names.

ghost use Rattle.std.specs.Prelude.{◌≡◌, ◌≤◌, ◌^◌, ◌<◌, MatchOption, IfSome, None, Some, length};
ghost use Rattle.std.specs.Str.{bytes_eq};
ghost use Rattle.std.specs.List.{position_or_len};
ghost use Rattle.request_lines.specs.Requests as spec;

use space_api::{Names, Text};

/// Whether exactly one space stands in a line.
fn has_one_space(line: &[u8]) -> bool
    ensures { result ≡ spec.has_one_space line.now }
{
    line.iter().filter(|byte| **byte == b' ').count() == 1
}

/// How many bytes stand before the first space of a line, or all.
fn place_of_space(line: &[u8]) -> usize
    ensures value { result ≡ position_or_len spec.is_space line.now }
    ensures within { result ≤ length line.now }
{
    for (i, byte) in line.iter().enumerate() {
        if *byte == b' ' {
            return i;
        }
    }
    line.len()
}

/// What stands before the space of a line, and what stands behind it. None exactly where the line
/// hasn't exactly one space.
#[tactic(auto, unfolding(crate::specs::Requests::words_of))]
pub fn words(line: &[u8]) -> Option<(&[u8], &[u8])>
    ensures { MatchOption result (spec.words_of line.now ≡ None)
        (λ words. spec.words_of line.now
        ≡ Some (record { name = words.0.now; digits = words.1.now })) }
{
    if !has_one_space(line) {
        return None;
    }
    let space = place_of_space(line);
    Some((&line[..space], &line[space + 1..]))
}

/// Whether this is the name.
fn is_named(other: &Text, name: &[u8]) -> bool
    ensures { result ≡ bytes_eq other.now name.now }
{
    other.as_str().as_bytes() == name
}

/// The place of a name among the names, from 0. None exactly where it isn't one of them.
#[tactic(auto, unfolding(crate::specs::Requests::function_of))]
fn place_of(names: &[Text], name: &[u8]) -> Option<usize>
    ensures place { result ≡ spec.function_of names.now name.now }
    ensures within { IfSome result (λ place. place < length names.now) }
{
    names.iter().position(|other| is_named(other, name))
}

/// The number of the function with this name: the place of the name among the names, from 0. None
/// exactly where it isn't one of them.
pub fn function_of(names: &Names, name: &[u8]) -> Option<u16>
    requires { length names.now ≤ 2 ^ 16 }
    ensures { result ≡ spec.function_of names.now name.now }
{
    let place = place_of(names.as_slice(), name)?;
    Some(place as u16)
}
