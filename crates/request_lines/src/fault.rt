//! Why a text is none of request lines.

ghost use Rattle.std.specs.Prelude.{◌≡◌};
ghost use Rattle.request_lines.specs.declared.fault.LineFault.TheVariants.{Memory};

use std::alloc::{AllocError, AllocFailed};
use std::error::Error;
use std::fmt;

/// The fault of a line. Of those that a line has, it is the first in this order.
#[derive(Clone, Copy, Debug)]
pub enum LineKind {
    /// 4,096 lines stand before it.
    Many,
    /// It hasn't exactly one space.
    Shape,
    /// What stands before the space is no function's name.
    Name,
    /// What stands behind the space is neither an even number of hexadecimal digits, at least two,
    /// nor `-`.
    Hex,
    /// Its packet has more than 32,768 bytes.
    Long,
}

impl LineKind {
    ghost use Rattle.request_lines.specs.FaultText.{kind_name};

    /// The variant's name.
    fn name(self) -> &'static str
        ensures { result.now ≡ kind_name self }
    {
        match self {
            LineKind::Many => "Many",
            LineKind::Shape => "Shape",
            LineKind::Name => "Name",
            LineKind::Hex => "Hex",
            LineKind::Long => "Long",
        }
    }
}

impl fmt::Display for LineKind {
    ghost use Rattle.std.specs.Prelude.{Some};
    ghost use Rattle.request_lines.specs.FaultText.{kind_name};

    ghost output = { λ kind. Some (kind_name kind) };

    fn fmt<W: fmt::Write>(&self, f: &mut fmt::Formatter<W>) -> fmt::Result {
        f.write_str(self.name())
    }
}

/// Why a text is none of request lines.
#[derive(Clone, Copy, Debug)]
pub enum LineFault {
    /// The first fault of the text: what is wrong with which line, from 1 on.
    At { line: u32, kind: LineKind },
    /// Memory ran out. This is no fault of the text.
    Memory,
}

impl fmt::Display for LineFault {
    ghost use Rattle.std.specs.Prelude.{Some};
    ghost use Rattle.request_lines.specs.FaultText.{fault_text};

    ghost output = { λ fault. Some (fault_text fault) };

    /// `line N KIND`, or `Memory`.
    fn fmt<W: fmt::Write>(&self, f: &mut fmt::Formatter<W>) -> fmt::Result {
        match self {
            LineFault::At { line, kind } => write!(f, "line {line} {kind}"),
            LineFault::Memory => f.write_str("Memory"),
        }
    }
}

impl Error for LineFault {}

impl From<AllocError> for LineFault {
    ghost from_gives = { λ _ fault. fault ≡ Memory };

    fn from(_error: AllocError) -> LineFault {
        LineFault::Memory
    }
}

impl<T: Drop> From<AllocFailed<T>> for LineFault {
    ghost from_gives = { λ _ fault. fault ≡ Memory };

    fn from(_error: AllocFailed<T>) -> LineFault {
        LineFault::Memory
    }
}
