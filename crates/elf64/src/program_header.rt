//! Program headers (System V ABI, "Program Header").

ghost use Rattle.std.specs.Prelude.{◌≡◌, ◌+◌, ◌^◌, ◌<◌, ◌≤◌, nat_lt, length};

use crate::field::{u32_at, u64_at};
use image_model::PAGE_SIZE;

/// How many bytes a program header takes in the file.
pub const PROGRAM_HEADER_SIZE: usize = 56;

/// The type of a header whose segment is loaded into memory.
const PT_LOAD: u32 = 1;

/// The flag of segments that may be executed.
const PF_X: u32 = 1;

/// Programs lie from this address on.
const LOWEST_ADDRESS: u64 = 0x1000;

/// Programs lie below this address.
const HIGHEST_ADDRESS: u64 = 0x3f_c000_0000;

/// What a program header says of its segment. A field may have any value that its type has.
#[derive(Clone, Copy, Debug, PartialEq, Eq, Default)]
pub struct ProgramHeader {
    /// What the segment is for.
    pub p_type: u32,
    /// Its permissions, 1 execute, 2 write, 4 read, added, and bits with other meanings.
    pub p_flags: u32,
    /// Where its file bytes begin in the file.
    pub p_offset: u64,
    /// The address of its first byte.
    pub p_vaddr: u64,
    /// How many file bytes it has.
    pub p_filesz: u64,
    /// How many bytes of memory it takes.
    pub p_memsz: u64,
}

impl ProgramHeader {
    ghost use Rattle.elf64.specs.Fields.{program_header_at};
    ghost use Rattle.elf64.specs.Segments as segments;
    ghost use Rattle.image_model.specs.Pages.{page_of};
    ghost use Rattle.image_model.specs.StartOf.{is_on_page};

    /// The program header that stands at the offset.
    pub fn read(bytes: &[u8], at: usize) -> ProgramHeader
        requires { at + 56 ≤ length bytes.now }
        ensures { result ≡ program_header_at bytes.now at }
    {
        ProgramHeader {
            p_type: u32_at(bytes, at),
            p_flags: u32_at(bytes, at + 4),
            p_offset: u64_at(bytes, at + 8),
            p_vaddr: u64_at(bytes, at + 16),
            p_filesz: u64_at(bytes, at + 32),
            p_memsz: u64_at(bytes, at + 40),
        }
    }

    /// Whether the segment is loaded into memory.
    pub fn is_load(&self) -> bool
        ensures { result ≡ segments.is_load self.now }
    {
        self.p_type == PT_LOAD
    }

    /// Whether the segment has a byte of memory.
    pub fn has_memory(&self) -> bool
        ensures { result ≡ segments.has_memory self.now }
    {
        self.p_memsz > 0
    }

    /// Whether the file bytes don't lie in a file of so many bytes, or are more than the bytes
    /// of memory.
    pub fn has_wrong_range(&self, file_length: usize) -> bool
        ensures { result ≡ segments.has_wrong_range file_length self.now }
    {
        self.leaves_file(file_length) || self.p_filesz > self.p_memsz
    }

    /// Whether a file byte lies behind the end of a file of so many bytes.
    fn leaves_file(&self, file_length: usize) -> bool
        ensures { result ≡ segments.leaves_file file_length self.now }
    {
        self.p_filesz > 0 && ends_behind(self.p_offset, self.p_filesz, file_length as u64)
    }

    /// Whether the segment has memory outside of the addresses of programs.
    pub fn has_wrong_address(&self) -> bool
        ensures { result ≡ segments.has_wrong_address self.now }
    {
        self.has_memory()
            && (self.p_vaddr < LOWEST_ADDRESS
                || ends_behind(self.p_vaddr, self.p_memsz, HIGHEST_ADDRESS))
    }

    /// Whether the two segments share an address.
    pub fn shares_address(&self, other: &ProgramHeader) -> bool
        ensures { result ≡ segments.shares_address self.now other.now }
    {
        self.has_memory()
            && other.has_memory()
            && other.ends_behind_address(self.p_vaddr)
            && self.ends_behind_address(other.p_vaddr)
    }

    /// Whether the segment ends behind the address.
    fn ends_behind_address(&self, address: u64) -> bool
        ensures { result ≡ nat_lt address (segments.memory_end self.now) }
    {
        address < self.p_vaddr || address - self.p_vaddr < self.p_memsz
    }

    /// Whether the segment may be executed and has a byte on the page of the address.
    pub fn is_executable_at(&self, address: u64) -> bool
        ensures { result ≡ segments.is_executable_on (page_of address) self.now }
    {
        self.is_on_page(address / PAGE_SIZE) && self.p_flags & PF_X != 0
    }

    /// Whether the segment has a byte on the page.
    fn is_on_page(&self, page: u64) -> bool
        requires { page < 2 ^ 52 }
        ensures { result ≡ is_on_page self.now.p_vaddr self.now.p_memsz page }
    {
        self.has_memory()
            && self.p_vaddr / PAGE_SIZE <= page
            && self.ends_behind_address(page * PAGE_SIZE)
    }
}

/// Whether so many bytes from the start on end behind the limit.
pub fn ends_behind(start: u64, size: u64, limit: u64) -> bool
    ensures { result ≡ nat_lt limit (start + size) }
{
    start.checked_add(size).is_none_or(|end| end > limit)
}
