//! Why a text is no program.

ghost use Rattle.std.specs.Prelude.{◌≡◌};
ghost use Rattle.rv_asm.specs.declared.fault.AsmFault.TheVariants.{Memory};

use asm_lines::AsmKind;
use std::alloc::AllocError;
use std::error::Error;
use std::fmt;

/// Why a text is no program.
#[derive(Clone, Copy, Debug)]
pub enum AsmFault {
    /// The first fault of the text: what is wrong with which line, from 1 on.
    At { line: u32, kind: AsmKind },
    /// Memory ran out. This is no fault of the text.
    Memory,
}

impl fmt::Display for AsmFault {
    /// `line N KIND`, or `out of memory`.
    fn fmt<W: fmt::Write>(&self, f: &mut fmt::Formatter<W>) -> fmt::Result {
        match self {
            AsmFault::At { line, kind } => write!(f, "line {line} {kind}"),
            AsmFault::Memory => f.write_str("out of memory"),
        }
    }
}

impl Error for AsmFault {}

impl From<AllocError> for AsmFault {
    ghost from_gives = { λ _ fault. fault ≡ Memory };

    fn from(_error: AllocError) -> AsmFault {
        AsmFault::Memory
    }
}
