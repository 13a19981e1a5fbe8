//! Why a command is refused.

ghost use Rattle.std.specs.Prelude.{◌≡◌};
ghost use Rattle.command_parts.specs.Refusals.{status_of, line_of};

use crate::cause::{Cause, Line, Status, whole_line};
use std::error::Error;
use std::fmt;

/// Why a command is refused: for a cause of its own, or for one that all commands share. Each has
/// a status and a line.
#[derive(Clone, Copy, Debug, PartialEq, Eq)]
pub enum Refusal<C> {
    /// The cause is the command's own.
    Own(C),
    /// The source is too long.
    Size,
    /// The source couldn't be read.
    Read,
    /// The sink couldn't be written.
    Write,
    /// A file couldn't be read.
    File,
    /// Memory ran out.
    Memory,
}

impl<C: Cause> Refusal<C> {
    /// The status that a refused command ends with.
    pub fn status(&self) -> Status
        ensures { result ≡ status_of C.own_status self.now }
    {
        match self {
            Refusal::Own(cause) => cause.status(),
            Refusal::Size => 3,
            Refusal::Read => 4,
            Refusal::Write => 5,
            Refusal::File => 6,
            Refusal::Memory => 7,
        }
    }

    /// The line that says why a command is refused.
    pub fn line(&self) -> Line
        ensures { result.bytes ≡ line_of C.own_line self.now }
    {
        match self {
            Refusal::Own(cause) => cause.line(),
            Refusal::Size => whole_line("seuss: size\n"),
            Refusal::Read => whole_line("seuss: read fault\n"),
            Refusal::Write => whole_line("seuss: write fault\n"),
            Refusal::File => whole_line("seuss: file fault\n"),
            Refusal::Memory => whole_line("seuss: memory\n"),
        }
    }
}

impl<C: Cause> fmt::Display for Refusal<C> {
    /// The line without its end.
    fn fmt<W: fmt::Write>(&self, f: &mut fmt::Formatter<W>) -> fmt::Result {
        f.write_str(self.line().as_str().trim_ascii_end())
    }
}

impl<C: Cause + fmt::Debug> Error for Refusal<C> {}
