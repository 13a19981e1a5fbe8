//! Why a file is no image.

ghost use Rattle.std.specs.Prelude.{◌≡◌, ◌≢◌, ◌↔◌, IsNone, IfSome};
ghost use Rattle.elf64.specs.declared.fault.ElfFault.TheVariants.{Memory};

use std::alloc::{AllocError, AllocFailed};
use std::error::Error;
use std::fmt;

/// Why a file is no image. All but `Memory` are image faults.
#[derive(Clone, Copy, Debug, PartialEq, Eq)]
pub enum ElfFault {
    /// The file has fewer bytes than a file header.
    Short,
    /// The file is larger than 16,777,216 bytes, has more than 64 program headers, loads more
    /// than 16 segments, or loads more than 16,777,216 file bytes.
    TooBig,
    /// The file doesn't begin as each ELF file does.
    Magic,
    /// The file isn't for a 64-bit machine.
    Class,
    /// The file's numbers don't stand with their lowest byte first.
    Order,
    /// The file isn't an executable at fixed addresses.
    FileKind,
    /// The file isn't for RISC-V.
    Machine,
    /// The file's program headers aren't 56 bytes each.
    HeaderSize,
    /// The program headers don't lie in the file.
    ProgramHeader,
    /// A segment's file bytes don't lie in the file, or are more than its bytes of memory.
    SegmentRange,
    /// A segment lies below or above the addresses of programs.
    Address,
    /// Two segments share an address.
    Overlap,
    /// The entry is between two instructions, or isn't on an executable page.
    Entry,
    /// Memory ran out. This is no fault of the file.
    Memory,
}

impl ElfFault {
    ghost use Rattle.elf64.specs.FaultName.{fault_name};

    /// The variant's name.
    fn name(self) -> &'static str
        ensures { result.now ≡ fault_name self }
    {
        match self {
            ElfFault::Short => "Short",
            ElfFault::TooBig => "TooBig",
            ElfFault::Magic => "Magic",
            ElfFault::Class => "Class",
            ElfFault::Order => "Order",
            ElfFault::FileKind => "FileKind",
            ElfFault::Machine => "Machine",
            ElfFault::HeaderSize => "HeaderSize",
            ElfFault::ProgramHeader => "ProgramHeader",
            ElfFault::SegmentRange => "SegmentRange",
            ElfFault::Address => "Address",
            ElfFault::Overlap => "Overlap",
            ElfFault::Entry => "Entry",
            ElfFault::Memory => "Memory",
        }
    }
}

impl fmt::Display for ElfFault {
    ghost use Rattle.std.specs.Prelude.{Some};
    ghost use Rattle.elf64.specs.FaultName.{fault_name};

    ghost output = { λ fault. Some (fault_name fault) };

    fn fmt<W: fmt::Write>(&self, f: &mut fmt::Formatter<W>) -> fmt::Result {
        f.write_str(self.name())
    }
}

impl Error for ElfFault {}

impl From<AllocError> for ElfFault {
    ghost from_gives = { λ _ fault. fault ≡ Memory };

    fn from(_error: AllocError) -> ElfFault {
        ElfFault::Memory
    }
}

impl<T: Drop> From<AllocFailed<T>> for ElfFault {
    ghost from_gives = { λ _ fault. fault ≡ Memory };

    fn from(_error: AllocFailed<T>) -> ElfFault {
        ElfFault::Memory
    }
}

/// An image fault: a fault of the file, and so never want of memory.
#[derive(Clone, Copy, Debug, PartialEq, Eq)]
pub struct ImageFault {
    /// Which fault it is, any but `Memory`.
    pub fault: ElfFault,
    pub ghost named: { fault ≢ Memory },
}

impl ImageFault {
    /// The image fault that a fault is, and none of `Memory`.
    pub fn of(fault: ElfFault) -> Option<ImageFault>
        ensures none { IsNone result ↔ (fault ≡ ElfFault.Memory) }
        ensures some { IfSome result (λ image_fault. image_fault.fault ≡ fault) }
    {
        if fault == ElfFault::Memory {
            None
        } else {
            Some(ImageFault { fault })
        }
    }
}
