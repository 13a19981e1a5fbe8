//! Why a text and its images are no plan.

ghost use Rattle.std.specs.Prelude.{◌≡◌};
ghost use Rattle.plan_tables.specs.declared.fault.PlanFault.TheVariants.{Memory};

use crate::key::Key;
use crate::shown::Shown;
use elf64::ElfFault;
use plan_model::Text;
use std::alloc::{AllocError, AllocFailed};
use std::error::Error;
use std::fmt;

/// Why a text and its images are no plan. All but `Memory` are faults of the text or of a file.
#[derive(Debug, Drop)]
pub enum PlanFault {
    /// The text has more than 1,048,576 bytes, or isn't a document of TOML.
    Toml,
    /// A table lacks the key. A layer lacks `image` also where it has neither or both of `image`
    /// and `below`.
    Missing(Key),
    /// A table has a key that no plan has there.
    Unknown(Text),
    /// What stands at the key is of another type.
    Shape(Key),
    /// What stands at the key is out of its range.
    Range(Key),
    /// A name is malformed or repeated in its kind, or a function's layer is unknown.
    Name,
    /// A layer stands on no earlier layer.
    Below,
    /// An image's file is no image, or the images are too big together.
    Image(ElfFault),
    /// A file couldn't be read, and the count of faults of the files rose.
    File,
    /// Memory ran out. This is no fault of the text or of a file.
    Memory,
}

impl fmt::Display for PlanFault {
    ghost use Rattle.std.specs.Prelude.{Some};
    ghost use Rattle.plan_tables.specs.FaultText.{fault_text};

    ghost output = { λ fault. Some (fault_text fault) };

    fn fmt<W: fmt::Write>(&self, f: &mut fmt::Formatter<W>) -> fmt::Result {
        match self {
            PlanFault::Toml => f.write_str("Toml"),
            PlanFault::Missing(key) => write!(f, "Missing {key}"),
            PlanFault::Unknown(text) => { write!(f, "Unknown {}", Shown(text.as_str().as_bytes())) }
            PlanFault::Shape(key) => write!(f, "Shape {key}"),
            PlanFault::Range(key) => write!(f, "Range {key}"),
            PlanFault::Name => f.write_str("Name"),
            PlanFault::Below => f.write_str("Below"),
            PlanFault::Image(fault) => write!(f, "Image {fault}"),
            PlanFault::File => f.write_str("File"),
            PlanFault::Memory => f.write_str("Memory"),
        }
    }
}

impl Error for PlanFault {}

impl From<AllocError> for PlanFault {
    ghost from_gives = { λ _ fault. fault ≡ Memory };

    fn from(_error: AllocError) -> PlanFault {
        PlanFault::Memory
    }
}

impl<T: Drop> From<AllocFailed<T>> for PlanFault {
    ghost from_gives = { λ _ fault. fault ≡ Memory };

    fn from(_error: AllocFailed<T>) -> PlanFault {
        PlanFault::Memory
    }
}
