//! The file header (System V ABI, "ELF Header").

ghost use Rattle.std.specs.Prelude.{◌≡◌, ◌≤◌, length, OnOk};
ghost use Rattle.std.specs.Result.{result_err};
ghost use Rattle.image_model.specs.Files.{file_limit};
ghost use Rattle.elf64.specs.Elf as elf;
ghost use Rattle.elf64.specs.Elf.{first_fault, file_checks};
ghost use Rattle.elf64.specs.Fields as fields;

use crate::fault::ElfFault;
use crate::field::{u16_at, u64_at};
use image_model::FILE_LIMIT;

/// How many bytes the file header takes.
pub const FILE_HEADER_SIZE: usize = 64;

/// How many program headers a file may have.
const MOST_PROGRAM_HEADERS: u16 = 64;

/// The first bytes of each ELF file, `ELFMAG`.
const ELFMAG: [u8; 4] = [0x7f, b'E', b'L', b'F'];

/// Where the class stands, one byte.
const EI_CLASS: usize = 4;

/// The class of files for 64-bit machines.
const ELFCLASS64: u8 = 2;

/// Where the order of numbers' bytes stands, one byte.
const EI_DATA: usize = 5;

/// The lowest byte first.
const ELFDATA2LSB: u8 = 1;

/// The kind of a file that is a program at fixed addresses.
const ET_EXEC: u16 = 2;

/// The machine RISC-V.
const EM_RISCV: u16 = 243;

/// The first fault of a file that its size and its file header show:
///
/// - `Short`: it has fewer than 64 bytes.
/// - `TooBig`: it has more than 16,777,216 bytes or more than 64 program headers.
/// - `Magic`: it doesn't begin with `ELFMAG`.
/// - `Class`: it isn't of `ELFCLASS64`.
/// - `Order`: it isn't of `ELFDATA2LSB`.
/// - `FileKind`: it isn't of `ET_EXEC`.
/// - `Machine`: it isn't for `EM_RISCV`.
#[tactic(auto, unfolding(crate::specs::Elf::file_checks))]
pub fn check_file_header(bytes: &[u8]) -> Result<(), ElfFault>
    ensures fault { result_err result ≡ first_fault (file_checks bytes.now) }
    ensures long { OnOk result (fields.file_header_size ≤ length bytes.now) }
    ensures small { OnOk result (length bytes.now ≤ file_limit) }
{
    if is_short(bytes) {
        return Err(ElfFault::Short);
    }
    if is_too_big(bytes) {
        return Err(ElfFault::TooBig);
    }
    if has_other_magic(bytes) {
        return Err(ElfFault::Magic);
    }
    if has_other_class(bytes) {
        return Err(ElfFault::Class);
    }
    if has_other_order(bytes) {
        return Err(ElfFault::Order);
    }
    if e_type(bytes) != ET_EXEC {
        return Err(ElfFault::FileKind);
    }
    if e_machine(bytes) != EM_RISCV {
        return Err(ElfFault::Machine);
    }
    Ok(())
}

/// Whether the file has fewer bytes than a file header.
fn is_short(bytes: &[u8]) -> bool
    ensures { result ≡ elf.is_short bytes.now }
{
    bytes.len() < FILE_HEADER_SIZE
}

/// Whether the file has too many bytes or program headers.
fn is_too_big(bytes: &[u8]) -> bool
    requires { fields.file_header_size ≤ length bytes.now }
    ensures { result ≡ elf.is_too_big bytes.now }
{
    bytes.len() as u64 > FILE_LIMIT || e_phnum(bytes) > MOST_PROGRAM_HEADERS
}

/// Whether the file begins otherwise than each ELF file does.
fn has_other_magic(bytes: &[u8]) -> bool
    ensures { result ≡ elf.has_other_magic bytes.now }
{
    !bytes.starts_with(&ELFMAG)
}

/// Whether the file isn't for 64-bit machines.
fn has_other_class(bytes: &[u8]) -> bool
    requires { fields.file_header_size ≤ length bytes.now }
    ensures { result ≡ elf.has_other_class bytes.now }
{
    bytes[EI_CLASS] != ELFCLASS64
}

/// Whether the lowest byte isn't first in the file's numbers.
fn has_other_order(bytes: &[u8]) -> bool
    requires { fields.file_header_size ≤ length bytes.now }
    ensures { result ≡ elf.has_other_order bytes.now }
{
    bytes[EI_DATA] != ELFDATA2LSB
}

/// The kind of file.
fn e_type(bytes: &[u8]) -> u16
    requires { fields.file_header_size ≤ length bytes.now }
    ensures { result ≡ fields.e_type bytes.now }
{
    u16_at(bytes, 16)
}

/// The machine that the program is for.
fn e_machine(bytes: &[u8]) -> u16
    requires { fields.file_header_size ≤ length bytes.now }
    ensures { result ≡ fields.e_machine bytes.now }
{
    u16_at(bytes, 18)
}

/// The address of the program's first instruction.
pub fn e_entry(bytes: &[u8]) -> u64
    requires { fields.file_header_size ≤ length bytes.now }
    ensures { result ≡ fields.e_entry bytes.now }
{
    u64_at(bytes, 24)
}

/// The offset of the first program header.
pub fn e_phoff(bytes: &[u8]) -> u64
    requires { fields.file_header_size ≤ length bytes.now }
    ensures { result ≡ fields.e_phoff bytes.now }
{
    u64_at(bytes, 32)
}

/// How many bytes each program header takes.
pub fn e_phentsize(bytes: &[u8]) -> u16
    requires { fields.file_header_size ≤ length bytes.now }
    ensures { result ≡ fields.e_phentsize bytes.now }
{
    u16_at(bytes, 54)
}

/// How many program headers there are.
pub fn e_phnum(bytes: &[u8]) -> u16
    requires { fields.file_header_size ≤ length bytes.now }
    ensures { result ≡ fields.e_phnum bytes.now }
{
    u16_at(bytes, 56)
}
