//! The forms of the program's arguments.

ghost use Rattle.std.specs.Prelude.{◌≡◌, ℕ, ◌↔◌, List, [], ◌∷◌, IsTrue, MatchOption};
ghost use Rattle.seuss_top.specs.Arguments.{texts, IsFileName};
ghost use Rattle.seuss_top.specs.Command.{IsCall, IsCommand, HaveNoForm, command_of};

use crate::command::Command;

/// Whether the argument can name a file: it isn't empty and doesn't begin with a dash.
fn is_file_name(argument: &str) -> bool
    ensures { IsTrue result ↔ IsFileName argument.now }
{
    match argument.as_bytes() {
        [first, ..] => *first != b'-',
        [] => false,
    }
}

/// The name of the image in `call IMAGE`, or none where the arguments are something else.
fn called_image(arguments: &[String]) -> Option<&str>
    ensures { MatchOption result ((image : List ℕ) → IsCall (texts arguments.now) image → ⊥)
        (λ name. IsCall (texts arguments.now) name.now) }
{
    match arguments {
        [command, image] if command.as_str() == "call" && is_file_name(image.as_str()) => {
            Some(image.as_str())
        }
        _ => None,
    }
}

/// Whether the arguments are this word alone.
fn is_only(arguments: &[String], word: &str) -> bool
    ensures { IsTrue result ↔ (texts arguments.now ≡ word.now ∷ []) }
{
    match arguments {
        [only] => only.as_str() == word,
        _ => false,
    }
}

/// The command that the arguments are, or none where they are in no form.
pub fn parse(arguments: &[String]) -> Option<Command<'_>>
    ensures { MatchOption result (HaveNoForm (texts arguments.now))
        (λ command. IsCommand (texts arguments.now) (command_of command)) }
{
    if is_only(arguments, "asm") {
        return Some(Command::Asm);
    }
    if is_only(arguments, "dis") {
        return Some(Command::Dis);
    }
    match called_image(arguments) {
        Some(image) => Some(Command::Call { image }),
        None => None,
    }
}
