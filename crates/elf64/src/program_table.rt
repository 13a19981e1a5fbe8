//! The program headers of a file, and the PT_LOADs among them (System V ABI, "ELF Header").

ghost use Rattle.std.specs.Prelude.{◌≡◌, ◌≤◌, ◌<◌, false, is_none, length, IfOk, IfSome};
ghost use Rattle.std.specs.Result.{result_err};
ghost use Rattle.elf64.specs.Elf as elf;
ghost use Rattle.elf64.specs.Elf.{first_fault, header_checks};
ghost use Rattle.elf64.specs.Fields as fields;
ghost use Rattle.elf64.specs.Segments as segments;

use crate::fault::ElfFault;
use crate::file_header::{e_phentsize, e_phnum, e_phoff};
use crate::loads::Loads;
use crate::program_header::{PROGRAM_HEADER_SIZE, ProgramHeader, ends_behind};

/// The PT_LOADs of a file, in file order, or the first fault that its table of program headers
/// shows:
///
/// - `HeaderSize`: it has program headers, and not of 56 bytes each.
/// - `ProgramHeader`: it has program headers, and they don't all lie in it.
/// - `TooBig`: it has more than 16 PT_LOADs.
#[tactic(auto, unfolding(crate::specs::Elf::header_checks))]
pub fn read_loads(bytes: &[u8]) -> Result<Loads, ElfFault>
    requires { fields.file_header_size ≤ length bytes.now }
    ensures fault { result_err result ≡ first_fault (header_checks bytes.now) }
    ensures loads { IfOk result (λ found. found ≡ segments.loads bytes.now) }
{
    if has_other_header_size(bytes) {
        return Err(ElfFault::HeaderSize);
    }
    if has_headers_outside(bytes) {
        return Err(ElfFault::ProgramHeader);
    }
    loads(bytes).ok_or(ElfFault::TooBig)
}

/// Whether there are program headers, of another size than 56 bytes.
fn has_other_header_size(bytes: &[u8]) -> bool
    requires { fields.file_header_size ≤ length bytes.now }
    ensures { result ≡ elf.has_other_header_size bytes.now }
{
    e_phnum(bytes) > 0 && e_phentsize(bytes) as usize != PROGRAM_HEADER_SIZE
}

/// Whether there are program headers, and they end behind the end of the file.
fn has_headers_outside(bytes: &[u8]) -> bool
    requires { fields.file_header_size ≤ length bytes.now }
    ensures { result ≡ elf.has_headers_outside bytes.now }
{
    let size = PROGRAM_HEADER_SIZE as u64 * e_phnum(bytes) as u64;
    e_phnum(bytes) > 0 && ends_behind(e_phoff(bytes), size, bytes.len() as u64)
}

/// The PT_LOADs in file order, and none where there are more than 16.
fn loads(bytes: &[u8]) -> Option<Loads>
    requires long { fields.file_header_size ≤ length bytes.now }
    requires inside { elf.has_headers_outside bytes.now ≡ false }
    ensures none { is_none result ≡ elf.has_too_many_loads bytes.now }
    ensures some { IfSome result (λ found. found ≡ segments.loads bytes.now) }
{
    let mut loads = Loads::new();
    for index in 0..e_phnum(bytes) {
        let header = program_header(bytes, index);
        if header.is_load() {
            if loads.is_full() {
                return None;
            }
            loads.push(header);
        }
    }
    Some(loads)
}

/// The program header of a number, from 0 on.
fn program_header(bytes: &[u8], index: u16) -> ProgramHeader
    requires long { fields.file_header_size ≤ length bytes.now }
    requires inside { elf.has_headers_outside bytes.now ≡ false }
    requires index { index < fields.e_phnum bytes.now }
    ensures { result ≡ fields.program_header bytes.now index }
{
    let at = e_phoff(bytes) as usize + PROGRAM_HEADER_SIZE * index as usize;
    ProgramHeader::read(bytes, at)
}
