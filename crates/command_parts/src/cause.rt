//! Causes of refusal that are a command's own.

ghost use Rattle.std.specs.Prelude.{◌≡◌, ℕ, ◌≤◌, List, length};

use arrayvec::ArrayString;

/// The most bytes of a refusal's line.
const LINE_SIZE: usize = 64;

/// The line of a refusal, with its end.
pub type Line = ArrayString<LINE_SIZE>;

/// How a command ended: 0 is done, and each other number is that of refusals.
///
/// | Status | It comes |
/// |---|---|
/// | 1 | exactly where the arguments are in no form |
/// | 2 | only where an image is refused |
/// | 3 | only where a line of text is refused, or the source is longer than its limit |
/// | 4 | exactly where a read of the source failed |
/// | 5 | exactly where a write of the sink failed; a part of the output was written |
/// | 6 | exactly where a file couldn't be read |
/// | 7 | where memory ran out, which has no cause that a contract could name |
pub type Status = u8;

/// A cause that a command has beside those that all share. Each has a status and a line.
pub trait Cause: Copy {
    /// Its status. 4 to 7 are those of the causes that all share.
    ghost own_status: { Self → ℕ };

    /// Its line, with its end.
    ghost own_line: { Self → List ℕ };

    /// The status that a command ends with which is refused for it.
    fn status(&self) -> Status
        ensures { result ≡ own_status self.now };

    /// The line that says so.
    fn line(&self) -> Line
        ensures { result.bytes ≡ own_line self.now };
}

/// A line that is one text.
pub fn whole_line(text: &str) -> Line
    requires { length text.now ≤ 64 }
    ensures { result.bytes ≡ text.now }
{
    let mut line = Line::new();
    line.push_str(text);
    line
}
