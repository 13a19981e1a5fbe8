//! Reading of an image.

ghost use Rattle.std.specs.Prelude.{◌≡◌, ◌≢◌, ◌≤◌, false, length, IfErr, IfOk, IsOk, OnOk};
ghost use Rattle.std.specs.Result.{result_err};
ghost use Rattle.elf64.specs.Elf.{elf, checks, first_fault, has_wrong_ranges, image_of};
ghost use Rattle.elf64.specs.Fields.{file_header_size};
ghost use Rattle.elf64.specs.Segments.{loads};

use crate::fault::{ElfFault, ImageFault};
use crate::file_header::{check_file_header, e_entry};
use crate::loads::Loads;
use crate::program_table::read_loads;
use crate::segments::{check_loads, segments};
use image_model::{Image, Segments};
use std::alloc::Global;

/// The image of a statically linked 64-bit RISC-V executable, from the bytes of its ELF file, or
/// the file's first fault in this order (System V ABI, "ELF Header" and "Program Header"):
///
/// - `Short`: it has fewer than 64 bytes.
/// - `TooBig`: it has more than 16,777,216 bytes or more than 64 program headers.
/// - `Magic`, `Class`, `Order`: it doesn't begin with `ELFMAG`, isn't of `ELFCLASS64`, isn't of
///   `ELFDATA2LSB`.
/// - `FileKind`, `Machine`: it isn't of `ET_EXEC`, isn't for `EM_RISCV`.
/// - `HeaderSize`, `ProgramHeader`: it has program headers, and not of 56 bytes each, or not all
///   of them lie in it.
/// - `TooBig`: it has more than 16 PT_LOADs.
/// - `SegmentRange`: the file bytes of a PT_LOAD don't lie in the file, or are more than its bytes
///   of memory.
/// - `TooBig`: the PT_LOADs have more than 16,777,216 file bytes together.
/// - `Address`: a PT_LOAD with memory begins below 0x1000 or ends above 0x3FC0000000.
/// - `Overlap`: two PT_LOADs with memory share an address.
/// - `Entry`: the entry isn't a multiple of 4, or isn't on an executable page.
///
/// `Memory` comes only where the file has no fault: there is no room for the image.
pub fn read_image(alloc: Global, bytes: &[u8]) -> Result<Image, ElfFault>
    ensures image { IfOk result (λ image. elf bytes.now ≡ Ok image) }
    ensures fault { IfErr result (λ fault. fault ≢ ElfFault.Memory → elf bytes.now ≡ Err fault) }
    ensures memory { result ≡ Err ElfFault.Memory → IsOk (elf bytes.now) }
{
    let loads = check(bytes)?;
    let segments = segments(alloc, bytes, loads.as_slice())?;
    Ok(Image {
        entry: e_entry(bytes),
        segments: Segments::from_vec(segments),
    })
}

/// The PT_LOADs of a file without fault, in file order, or the file's first fault, as `read_image`
/// tells them. The file's image is then `image_of bytes`, and nothing of it is copied: the bytes of
/// a segment are had in their place by `file_bytes`.
pub fn check_image(bytes: &[u8]) -> Result<Loads, ImageFault>
    ensures image { OnOk result (elf bytes.now ≡ Ok (image_of bytes.now)) }
    ensures loads { IfOk result (λ found. found ≡ loads bytes.now) }
    ensures ranges { OnOk result (has_wrong_ranges bytes.now ≡ false) }
    ensures fault { IfErr result (λ fault. elf bytes.now ≡ Err fault.fault) }
{
    match check(bytes) {
        Ok(loads) => Ok(loads),
        Err(fault) => Err(ImageFault { fault }),
    }
}

/// The PT_LOADs of a file without fault, or its first fault, as `read_image` tells them.
fn check(bytes: &[u8]) -> Result<Loads, ElfFault>
    ensures fault { result_err result ≡ first_fault (checks bytes.now) }
    ensures loads { IfOk result (λ found. found ≡ loads bytes.now) }
    ensures ranges { OnOk result (has_wrong_ranges bytes.now ≡ false) }
    ensures long { OnOk result (file_header_size ≤ length bytes.now) }
{
    check_file_header(bytes)?;
    let loads = read_loads(bytes)?;
    check_loads(bytes, loads.as_slice())?;
    Ok(loads)
}
