//! Why a store made nothing.

use std::error::Error;
use std::fmt;

/// Why a store made nothing. All that it was given is as it was.
#[derive(Clone, Copy, Debug, PartialEq, Eq)]
pub enum Refused {
    /// Fewer frames are free than are asked for.
    Frames,
    /// Memory ran out.
    Memory,
}

impl fmt::Display for Refused {
    fn fmt<W: fmt::Write>(&self, f: &mut fmt::Formatter<W>) -> fmt::Result {
        match self {
            Refused::Frames => write!(f, "out of frames"),
            Refused::Memory => write!(f, "out of memory"),
        }
    }
}

impl Error for Refused {}
