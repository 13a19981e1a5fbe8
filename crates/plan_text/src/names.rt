//! The names of layers and functions.

ghost use Rattle.std.specs.Prelude.{◌≡◌, ◌+◌, ◌≤◌, ◌<◌, List, ℕ, length, map};
ghost use Rattle.std.specs.List.{list_all, list_any};
ghost use Rattle.std.specs.Str.{bytes_eq};
ghost use Rattle.plan_text.specs.Names as spec;

use plan_model::PlanLayer;
use plan_tables::{FunctionText, LayerText};

/// The most characters of a name.
const LONGEST_NAME: usize = 32;

/// What has a name.
pub trait Named {
    ghost named: { Self → List ℕ };

    /// The name.
    fn name(&self) -> &str
        ensures { result.now ≡ named self.now };
}

impl Named for LayerText {
    ghost named = { λ layer. layer.name };

    fn name(&self) -> &str {
        self.name.as_str()
    }
}

impl Named for FunctionText {
    ghost named = { λ function. function.name };

    fn name(&self) -> &str {
        self.name.as_str()
    }
}

impl Named for PlanLayer {
    ghost named = { λ layer. layer.name };

    fn name(&self) -> &str {
        self.name.as_str()
    }
}

/// Whether each is well named, and no two have one name.
#[tactic(auto, unfolding(crate::specs::Names::are_names))]
pub fn are_names<T: Named>(all: &[T]) -> bool
    ensures { result ≡ spec.are_names (map T.named all.now) }
{
    are_well_named(all) && !has_repeat(all)
}

/// Whether each has a name of 1 to 32 of the characters `a` to `z`, `0` to `9`, `_` and `-`, of
/// which the first is a letter.
fn are_well_named<T: Named>(all: &[T]) -> bool
    ensures { result ≡ list_all spec.is_name (map T.named all.now) }
{
    match all {
        [] => true,
        [first, rest @ ..] => is_name(first.name().as_bytes()) && are_well_named(rest),
    }
}

/// Whether the text is a name.
fn is_name(text: &[u8]) -> bool
    ensures { result ≡ spec.is_name text.now }
{
    match text {
        [] => false,
        [first, ..] => {
            is_letter(*first) && (text.len() <= LONGEST_NAME && are_name_characters(text))
        }
    }
}

/// Whether each is a character of names.
fn are_name_characters(text: &[u8]) -> bool
    ensures { result ≡ list_all spec.is_name_character text.now }
{
    match text {
        [] => true,
        [first, rest @ ..] => is_name_character(*first) && are_name_characters(rest),
    }
}

/// Whether it is a character of names: `a` to `z`, `0` to `9`, `_` or `-`.
fn is_name_character(character: u8) -> bool
    ensures { result ≡ spec.is_name_character character }
{
    is_letter(character)
        || (b'0' <= character && character <= b'9')
        || character == b'_'
        || character == b'-'
}

/// Whether it is a letter, `a` to `z`.
fn is_letter(character: u8) -> bool
    ensures { result ≡ spec.is_letter character }
{
    b'a' <= character && character <= b'z'
}

/// Whether two have one name.
fn has_repeat<T: Named>(all: &[T]) -> bool
    ensures { result ≡ spec.has_repeat (map T.named all.now) }
{
    match all {
        [] => false,
        [first, rest @ ..] => has_name(rest, first.name()) || has_repeat(rest),
    }
}

/// Whether one has the name.
fn has_name<T: Named>(all: &[T], name: &str) -> bool
    ensures { result ≡ list_any (λ other. bytes_eq other name.now) (map T.named all.now) }
{
    match all {
        [] => false,
        [first, rest @ ..] => first.name() == name || has_name(rest, name),
    }
}

/// The number of the first that has the name, where the first of all has a number already.
pub fn number_of<T: Named>(first: u16, name: &str, all: &[T]) -> Option<u16>
    requires { first + length all.now ≤ 65535 }
    ensures { result ≡ spec.number_of first name.now (map T.named all.now) }
{
    match all {
        [] => None,
        [next, rest @ ..] => {
            if next.name() == name {
                Some(first)
            } else {
                number_of(first + 1, name, rest)
            }
        }
    }
}
