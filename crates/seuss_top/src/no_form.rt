//! Arguments that are no command.

ghost use Rattle.seuss_top.specs.Command.{no_form_line};

use command_parts::{Cause, Line, Status, whole_line};

/// The arguments are in no form.
#[derive(Clone, Copy, Debug, PartialEq, Eq)]
pub struct NoForm;

impl Cause for NoForm {
    ghost own_status = { λ _. 1 };

    ghost own_line = { λ _. no_form_line };

    /// 1.
    fn status(&self) -> Status {
        1
    }

    /// It says that the words are wrong.
    fn line(&self) -> Line {
        whole_line("seuss: words\n")
    }
}
