//! A segment of a text.

ghost use Rattle.std.specs.Prelude.{◌≡◌, ◌+◌, ◌^◌, ◌<◌, nat_lt, if◌then◌else◌, IfOk, []};
ghost use Rattle.asm_lines.specs.Said.{said_data, IsInRange};
ghost use Rattle.asm_program.specs.Held.{part_of, Makes};
ghost use Rattle.asm_program.specs.Program.{part_if_fits};

use crate::piece::{Piece, byte_count};
use asm_lines::{AsmKind, Data};
use std::alloc::{AllocError, Global};

/// A segment, and what lines say of its bytes.
#[derive(Drop)]
pub struct Part<'a> {
    /// The address of its first byte.
    pub at: u64,
    /// Its permissions: 1 execute, 2 write, 4 read, added.
    pub flags: u32,
    /// How many bytes of memory it takes.
    pub size: u64,
    /// How many bytes its pieces make.
    pub used: u64,
    /// Its pieces, in the order of the text.
    pub pieces: Vec<Piece<'a>>,
}

impl<'a> Part<'a> {
    /// A segment with no pieces.
    pub fn new(alloc: Global, at: u64, flags: u32, size: u64) -> Part<'a>
        ensures { part_of result ≡ record {
          at = at;
          flags = flags;
          size = size;
          end = at;
          pieces = [];
        } }
    {
        Part {
            at,
            flags,
            size,
            used: 0,
            pieces: Vec::new(alloc),
        }
    }

    /// Adds the bytes that a line says, or answers `OutOfRange`, and adds nothing, where the
    /// segment would be longer than its size.
    ///
    /// The only error is that memory ran out.
    pub fn add(&mut self, line: u32, says: Data<'a>) -> Result<Option<AsmKind>, AllocError>
        requires { IsInRange (said_data says) }
        ensures { IfOk result (λ fault.
            Makes (part_if_fits (part_of self.old) line (said_data says.entry)) fault
            (part_of self.old) (part_of self.new)) }
    {
        match self.used_with(byte_count(&says)) {
            None => Ok(Some(AsmKind::OutOfRange)),
            Some(used) => {
                let offset = self.used;
                self.pieces.push(Piece { line, offset, says })?;
                self.used = used;
                Ok(None)
            }
        }
    }

    /// How many bytes are used with so many more, or none where those don't fit.
    fn used_with(&self, count: u64) -> Option<u64>
        ensures { result ≡ (if nat_lt self.now.size (self.now.used + count) then None
            else Some (self.now.used + count)) }
    {
        let size = self.size;
        match self.used.checked_add(count) {
            Some(used) if used <= size => Some(used),
            Some(_) => None,
            None => None,
        }
    }

    /// The address behind its pieces, below 2^65.
    pub fn end(&self) -> u128
        ensures value { result ≡ (part_of self.now).end }
        ensures within { result < 2 ^ 65 }
    {
        u128::from(self.at) + u128::from(self.used)
    }
}
