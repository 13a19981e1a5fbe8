//! Why an access to a space wasn't done.

use std::error::Error;
use std::fmt;

/// Why an access to a space wasn't done. The space is as it was.
#[derive(Clone, Copy, Debug, PartialEq, Eq)]
pub enum Access {
    /// A byte may not be accessed so: the exception's cause (RISC-V privileged manual,
    /// "Machine Cause Register") and the least such address.
    Fault { cause: u64, addr: u64 },
    /// More frames are needed than the space has spares.
    NeedFrames,
    /// Memory ran out.
    Memory,
}

impl fmt::Display for Access {
    fn fmt<W: fmt::Write>(&self, f: &mut fmt::Formatter<W>) -> fmt::Result {
        match self {
            Access::Fault { cause, addr } => write!(f, "exception {cause} at {addr:x}"),
            Access::NeedFrames => write!(f, "out of frames"),
            Access::Memory => write!(f, "out of memory"),
        }
    }
}

impl Error for Access {}
