//! Which images are valid.

ghost use Rattle.std.specs.Prelude.{◌≡◌, ◌%◌, ◌^◌, ◌<◌, ◌≤◌, ◌==◌, ◌&&◌, nat_le, nat_lt, length};
ghost use Rattle.std.specs.List.{list_all, list_any, sum_by};
ghost use Rattle.image_model.specs.Pages.{page_of};
ghost use Rattle.image_model.specs.StartOf.{is_on_page};
ghost use Rattle.image_model.specs.Valid as spec;

use crate::image::{Image, Segment};
use crate::limits::{FILE_LIMIT, PAGE_SIZE};

/// An image has at most so many segments.
const MOST_SEGMENTS: usize = 16;

/// The flags of execute, write and read, added.
const ALL_FLAGS: u32 = 7;

/// The flag of segments that may be executed.
const EXECUTE: u32 = 1;

/// Programs lie from this address on.
const LOWEST_ADDRESS: u64 = 0x1000;

/// Programs end at or below this address.
const HIGHEST_ADDRESS: u64 = 0x3f_c000_0000;

/// How many bytes an instruction takes.
const INSTRUCTION_SIZE: u64 = 4;

/// How many bytes a file header takes.
const FILE_HEADER_SIZE: usize = 64;

/// How many bytes a program header takes.
const PROGRAM_HEADER_SIZE: usize = 56;

impl Image {
    /// Whether the image is valid:
    ///
    /// - It has at most 16 segments.
    /// - Each has memory, all from 0x1000 on and below 0x3FC0000000, no flags but execute, write
    ///   and read, and no more bytes than memory.
    /// - No two of them share an address.
    /// - The entry is a multiple of 4, on a page that may be executed.
    /// - Written as an ELF file, with a program header and bytes of its own for each segment, it
    ///   has at most 16,777,216 bytes.
    ///
    /// The images of `elf64::read_image` meet all of these but maybe the last: in the file that
    /// was read, segments may share bytes with one another and with the headers.
    pub fn is_valid(&self) -> bool
        ensures { result ≡ spec.is_valid self.now }
    {
        let segments = self.segments.as_slice();
        segments.len() <= MOST_SEGMENTS
            && are_right(segments)
            && !has_overlap(segments)
            && self.has_right_entry()
            && fits_file(segments)
    }

    /// Whether an instruction may begin at the entry, and its page may be executed.
    fn has_right_entry(&self) -> bool
        ensures { result ≡ spec.has_right_entry self.now }
    {
        self.entry % INSTRUCTION_SIZE == 0
            && is_executable(self.segments.as_slice(), self.entry / PAGE_SIZE)
    }
}

/// Whether each of the segments is right by itself.
fn are_right(segments: &[Segment]) -> bool
    ensures { result ≡ list_all spec.is_right_segment segments.now }
{
    segments.iter().all(|segment| segment.is_right())
}

/// Whether two of the segments share an address.
fn has_overlap(segments: &[Segment]) -> bool
    ensures { result ≡ spec.has_overlap segments.now }
{
    match segments {
        [] => false,
        [first, rest @ ..] => shares_address(first, rest) || has_overlap(rest),
    }
}

/// Whether the segment shares an address with one of the others.
fn shares_address(segment: &Segment, others: &[Segment]) -> bool
    ensures { result ≡ list_any (spec.shares_address segment.now) others.now }
{
    others.iter().any(|other| segment.shares_address(other))
}

/// Whether the page may be executed.
fn is_executable(segments: &[Segment], page: u64) -> bool
    requires { page < 2 ^ 52 }
    ensures { result ≡ spec.is_executable segments.now page }
{
    match segments {
        [] => false,
        [first, rest @ ..] => first.is_executable_on(page) || is_executable(rest, page),
    }
}

/// Whether the ELF file of at most 16 segments isn't too long.
fn fits_file(segments: &[Segment]) -> bool
    requires { length segments.now ≤ spec.most_segments }
    ensures { result ≡ nat_le (spec.file_size segments.now) spec.largest_file }
{
    let headers = FILE_HEADER_SIZE + PROGRAM_HEADER_SIZE * segments.len();
    has_at_most(segments, FILE_LIMIT as usize - headers)
}

/// Whether the segments have at most so many bytes together.
fn has_at_most(segments: &[Segment], room: usize) -> bool
    ensures { result ≡ nat_le (sum_by (λ s. length s.bytes) segments.now) room }
{
    match segments {
        [] => true,
        [first, rest @ ..] => {
            let length = first.bytes.as_slice().len();
            length <= room && has_at_most(rest, room - length)
        }
    }
}

impl Segment {
    /// Whether the segment is right by itself.
    fn is_right(&self) -> bool
        ensures { result ≡ spec.is_right_segment self.now }
    {
        self.has_right_memory() && self.has_right_flags() && self.has_right_bytes()
    }

    /// Whether the segment has memory, and all of it is in the memory of programs.
    fn has_right_memory(&self) -> bool
        ensures { result ≡ spec.has_right_memory self.now }
    {
        self.size > 0
            && self.at >= LOWEST_ADDRESS
            && self
                .at
                .checked_add(self.size)
                .is_some_and(|end| end <= HIGHEST_ADDRESS)
    }

    /// Whether the segment has no flags but execute, write and read.
    fn has_right_flags(&self) -> bool
        ensures { result ≡ spec.has_right_flags self.now }
    {
        self.flags <= ALL_FLAGS
    }

    /// Whether the bytes fit in the memory.
    fn has_right_bytes(&self) -> bool
        ensures { result ≡ spec.has_right_bytes self.now }
    {
        self.bytes.as_slice().len() as u64 <= self.size
    }

    /// Whether the two segments share an address.
    fn shares_address(&self, other: &Segment) -> bool
        ensures { result ≡ spec.shares_address self.now other.now }
    {
        other.ends_behind(self.at) && self.ends_behind(other.at)
    }

    /// Whether the segment ends behind the address.
    fn ends_behind(&self, address: u64) -> bool
        ensures { result ≡ nat_lt address (spec.memory_end self.now) }
    {
        address < self.at || address - self.at < self.size
    }

    /// Whether the segment has a byte on the page and may be executed.
    fn is_executable_on(&self, page: u64) -> bool
        requires { page < 2 ^ 52 }
        ensures { result ≡ spec.is_executable_on page self.now }
    {
        self.is_on_page(page) && self.flags & EXECUTE != 0
    }

    /// Whether the segment has a byte on the page.
    fn is_on_page(&self, page: u64) -> bool
        requires { page < 2 ^ 52 }
        ensures { result ≡ is_on_page self.now.at self.now.size page }
    {
        self.size > 0 && self.at / PAGE_SIZE <= page && self.ends_behind(page * PAGE_SIZE)
    }
}
