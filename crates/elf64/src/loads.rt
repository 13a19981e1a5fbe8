//! The PT_LOADs of a file.

ghost use Rattle.std.specs.Prelude.{◌≡◌, ◌<◌, ◌≤◌, ◌↔◌, [], ◌∷◌, ◌++◌, length, IsTrue};

use crate::program_header::ProgramHeader;
use std::marker::Model;

/// How many PT_LOADs a file may have.
const MOST_LOADS: usize = 16;

/// Program headers, at most 16, that contracts see as a list.
#[derive(Drop)]
pub struct Loads {
    headers: [ProgramHeader; MOST_LOADS],
    count: usize,
}

impl Model for Loads {
    ghost use Rattle.std.specs.Prelude.{◌≡◌, ◌≤◌, List, length, take};
    ghost use Rattle.elf64.specs.Elf.{most_loads};
    ghost use Rattle.elf64.specs.declared.program_header.ProgramHeader.{ProgramHeader};

    ghost Value = { List ProgramHeader };

    ghost view = { λ s. take s.count s.headers };

    ghost invariant = { λ s. (s.count ≤ most_loads) × (length s.headers ≡ most_loads) };
}

impl Loads {
    ghost use Rattle.elf64.specs.Elf.{most_loads};

    /// No headers.
    pub fn new() -> Loads
        ensures { result ≡ [] }
    {
        Loads {
            headers: [ProgramHeader::default(); MOST_LOADS],
            count: 0,
        }
    }

    /// Whether there are 16.
    pub fn is_full(&self) -> bool
        ensures { IsTrue result ↔ (length self.now ≡ most_loads) }
    {
        self.count == MOST_LOADS
    }

    /// Adds one at the end.
    pub fn push(&mut self, header: ProgramHeader)
        requires { length self.old < most_loads }
        ensures { self.new ≡ self.old ++ header ∷ [] }
    {
        self.headers[self.count] = header;
        self.count += 1;
    }

    /// All of the headers.
    pub fn as_slice(&self) -> &[ProgramHeader]
        ensures all { result.now ≡ self.now }
        ensures count { length result.now ≤ most_loads }
    {
        &self.headers[..self.count]
    }
}
