//! The segments of a file: what must hold of its PT_LOADs, and what they are in memory (System V
//! ABI, "Program Header").

ghost use Rattle.std.specs.Prelude.{◌≡◌, ◌^◌, ◌<◌, ◌≤◌, false, length, take, drop, IfOk, OnOk};
ghost use Rattle.std.specs.List.{list_any};
ghost use Rattle.std.specs.Result.{result_err};
ghost use Rattle.image_model.specs.Files.{file_limit};
ghost use Rattle.image_model.specs.Pages.{page_of};
ghost use Rattle.elf64.specs.Elf as elf;
ghost use Rattle.elf64.specs.Elf.{first_fault, segment_checks};
ghost use Rattle.elf64.specs.Fields.{file_header_size};
ghost use Rattle.elf64.specs.Segments as segments;
ghost use Rattle.elf64.specs.Segments.{file_sizes, has_wrong_range, is_executable_on};
ghost use Rattle.elf64.specs.Segments.{segment_of, segments_of};

use crate::fault::ElfFault;
use crate::file_header::e_entry;
use crate::program_header::ProgramHeader;
use image_model::{Bytes, FILE_LIMIT, Segment};
use std::alloc::{AllocError, Global};

/// The flags of execute, write and read are below this number.
const FLAGS: u32 = 8;

/// How many bytes an instruction takes.
const INSTRUCTION_SIZE: u64 = 4;

/// The first fault of a file that its PT_LOADs show:
///
/// - `SegmentRange`: the file bytes of one don't lie in the file, or are more than its bytes of
///   memory.
/// - `TooBig`: they have more than 16,777,216 file bytes together.
/// - `Address`: one with memory begins below 0x1000 or ends above 0x3FC0000000.
/// - `Overlap`: two with memory share an address.
/// - `Entry`: the entry isn't a multiple of 4, or isn't on an executable page.
#[tactic(auto, unfolding(crate::specs::Elf::segment_checks))]
pub fn check_loads(bytes: &[u8], loads: &[ProgramHeader]) -> Result<(), ElfFault>
    requires long { file_header_size ≤ length bytes.now }
    requires small { length bytes.now ≤ file_limit }
    requires loads { loads.now ≡ segments.loads bytes.now }
    requires few { length loads.now ≤ elf.most_loads }
    ensures fault { result_err result ≡ first_fault (segment_checks bytes.now) }
    ensures ranges { OnOk result (list_any (has_wrong_range (length bytes.now)) loads.now ≡ false) }
{
    if has_wrong_ranges(bytes.len(), loads) {
        return Err(ElfFault::SegmentRange);
    }
    if file_size(loads) > FILE_LIMIT {
        return Err(ElfFault::TooBig);
    }
    if has_wrong_addresses(loads) {
        return Err(ElfFault::Address);
    }
    if has_overlap(loads) {
        return Err(ElfFault::Overlap);
    }
    if has_wrong_entry(bytes, loads) {
        return Err(ElfFault::Entry);
    }
    Ok(())
}

/// Whether the file bytes of a header don't lie in a file of so many bytes, or are more than its
/// bytes of memory.
fn has_wrong_ranges(file_length: usize, loads: &[ProgramHeader]) -> bool
    ensures { result ≡ list_any (has_wrong_range file_length) loads.now }
{
    loads.iter().any(|load| load.has_wrong_range(file_length))
}

/// How many file bytes the headers have together.
fn file_size(loads: &[ProgramHeader]) -> u64
    requires { file_sizes loads.now < 2 ^ 64 }
    ensures { result ≡ file_sizes loads.now }
{
    loads.iter().map(|load| load.p_filesz).sum()
}

/// Whether a header has memory outside of the addresses of programs.
fn has_wrong_addresses(loads: &[ProgramHeader]) -> bool
    ensures { result ≡ list_any segments.has_wrong_address loads.now }
{
    loads.iter().any(|load| load.has_wrong_address())
}

/// Whether two of the headers share an address.
fn has_overlap(loads: &[ProgramHeader]) -> bool
    ensures { result ≡ segments.has_overlap loads.now }
{
    match loads {
        [] => false,
        [first, rest @ ..] => shares_address(first, rest) || has_overlap(rest),
    }
}

/// Whether the header shares an address with one of the others.
fn shares_address(load: &ProgramHeader, others: &[ProgramHeader]) -> bool
    ensures { result ≡ list_any (segments.shares_address load.now) others.now }
{
    others.iter().any(|other| load.shares_address(other))
}

/// Whether the entry is between two instructions or isn't on an executable page.
fn has_wrong_entry(bytes: &[u8], loads: &[ProgramHeader]) -> bool
    requires long { file_header_size ≤ length bytes.now }
    requires loads { loads.now ≡ segments.loads bytes.now }
    ensures { result ≡ elf.has_wrong_entry bytes.now }
{
    let entry = e_entry(bytes);
    entry % INSTRUCTION_SIZE != 0 || !is_executable_at(loads, entry)
}

/// Whether the page of the address has a byte of a segment that may be executed.
fn is_executable_at(loads: &[ProgramHeader], address: u64) -> bool
    ensures { result ≡ list_any (is_executable_on (page_of address)) loads.now }
{
    loads.iter().any(|load| load.is_executable_at(address))
}

/// The segments of the PT_LOADs with memory, in file order, with their bytes copied.
pub fn segments(
    alloc: Global,
    bytes: &[u8],
    loads: &[ProgramHeader],
) -> Result<Vec<Segment>, AllocError>
    requires { list_any (has_wrong_range (length bytes.now)) loads.now ≡ false }
    ensures { IfOk result (λ found. found.items ≡ segments_of bytes.now loads.now) }
{
    let mut found = Vec::new(alloc);
    for load in loads {
        if load.has_memory() {
            found.push(segment(alloc, bytes, load)?)?;
        }
    }
    Ok(found)
}

/// The segment of a PT_LOAD, with its bytes copied.
fn segment(alloc: Global, bytes: &[u8], load: &ProgramHeader) -> Result<Segment, AllocError>
    requires { has_wrong_range (length bytes.now) load.now ≡ false }
    ensures { IfOk result (λ found. found ≡ segment_of bytes.now load.now) }
{
    Ok(Segment {
        at: load.p_vaddr,
        flags: load.p_flags % FLAGS,
        size: load.p_memsz,
        bytes: Bytes::from_vec(Vec::from_slice(alloc, file_bytes(bytes, load))?),
    })
}

/// The file bytes of a PT_LOAD, in their place.
pub fn file_bytes<'a>(bytes: &'a [u8], load: &ProgramHeader) -> &'a [u8]
    requires { has_wrong_range (length bytes.now) load.now ≡ false }
    ensures { result.now ≡ take load.now.p_filesz (drop load.now.p_offset bytes.now) }
{
    if load.p_filesz == 0 {
        return &[];
    }
    let start = load.p_offset as usize;
    &bytes[start..start + load.p_filesz as usize]
}
