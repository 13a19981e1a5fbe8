//! Text of a document as a line shows it.

ghost use Rattle.std.specs.Prelude.{◌≡◌, ◌<◌, length, take};
ghost use Rattle.plan_tables.specs.Shown.{most_shown};

use std::fmt;

/// The most bytes of a text that are shown.
const MOST_SHOWN: usize = 64;

/// A byte as a line shows it: a printable character of ASCII as it is, and any other byte as `\x`
/// with two hexadecimal digits.
#[derive(Clone, Copy)]
struct ShownByte(u8);

impl fmt::Display for ShownByte {
    ghost use Rattle.std.specs.Prelude.{Some};
    ghost use Rattle.plan_tables.specs.Shown.{shown_byte};

    ghost output = { λ b. Some (shown_byte b.0) };

    fn fmt<W: fmt::Write>(&self, f: &mut fmt::Formatter<W>) -> fmt::Result {
        if b' ' <= self.0 && self.0 <= b'~' {
            f.write_char(char::from(self.0))
        } else {
            write!(f, "\\x{}", TwoDigits(self.0))
        }
    }
}

/// A byte in two hexadecimal digits.
#[derive(Clone, Copy)]
struct TwoDigits(u8);

impl fmt::Display for TwoDigits {
    ghost use Rattle.std.specs.Prelude.{Some};
    ghost use Rattle.plan_tables.specs.Shown.{two_digits};

    ghost output = { λ b. Some (two_digits b.0) };

    fn fmt<W: fmt::Write>(&self, f: &mut fmt::Formatter<W>) -> fmt::Result {
        write!(f, "{:x}{:x}", self.0 / 16, self.0 % 16)
    }
}

/// A text as one line shows it: byte by byte, where a longer one is cut after its first 64 bytes
/// and goes on with `...`.
#[derive(Clone, Copy)]
pub struct Shown<'a>(pub &'a [u8]);

impl fmt::Display for Shown<'_> {
    ghost use Rattle.std.specs.Prelude.{Some};
    ghost use Rattle.plan_tables.specs.Shown.{shown};

    ghost output = { λ s. Some (shown s.0.now) };

    fn fmt<W: fmt::Write>(&self, f: &mut fmt::Formatter<W>) -> fmt::Result {
        if self.0.len() <= MOST_SHOWN {
            write!(f, "{}", ShownBytes(self.0))
        } else {
            write!(f, "{}...", ShownBytes(front(self.0)))
        }
    }
}

/// The first bytes of a text that has more than are shown.
fn front(text: &[u8]) -> &[u8]
    requires { most_shown < length text.now }
    ensures { result.now ≡ take most_shown text.now }
{
    text.split_at(MOST_SHOWN).0
}

/// Bytes as a line shows them.
#[derive(Clone, Copy)]
struct ShownBytes<'a>(&'a [u8]);

impl fmt::Display for ShownBytes<'_> {
    ghost use Rattle.std.specs.Prelude.{Some};
    ghost use Rattle.plan_tables.specs.Shown.{shown_bytes};

    ghost output = { λ s. Some (shown_bytes s.0.now) };

    fn fmt<W: fmt::Write>(&self, f: &mut fmt::Formatter<W>) -> fmt::Result {
        'bytes: for byte in self.0 {
            write!(f, "{}", ShownByte(*byte))?;
        }
        Ok(())
    }
}
