//! Writing of an image.

ghost use Rattle.std.specs.Prelude.{◌≡◌, ◌++◌, ◌<◌, ◌≤◌, ◌^◌, ◌+◌, true, length, take, IfOk, OnOk};
ghost use Rattle.image_model.specs.Valid.{is_valid};
ghost use Rattle.elf64.specs.Elf.{elf};
ghost use Rattle.elf64_write.specs.Written as model;

use image_model::{Image, Segment};
use std::alloc::{AllocError, Global};

/// The bytes of the file header, and of each program header.
const FILE_HEADER_SIZE: usize = 64;

const PROGRAM_HEADER_SIZE: usize = 56;

/// What each ELF file of ours begins with: the magic, 64 bits, the lowest byte first, the
/// version of the format, and nine zeros.
const E_IDENT: [u8; 16] = [0x7f, b'E', b'L', b'F', 2, 1, 1, 0, 0, 0, 0, 0, 0, 0, 0, 0];

/// The kind of a file that is a program at fixed addresses.
const ET_EXEC: u16 = 2;

/// The machine RISC-V.
const EM_RISCV: u16 = 243;

/// The version of the format.
const EV_CURRENT: u32 = 1;

/// The type of a program header whose segment is loaded into memory.
const PT_LOAD: u32 = 1;

/// The ELF file of a valid image (System V ABI, "ELF Header" and "Program Header"): the file
/// header, one PT_LOAD header for each segment, and then the bytes of the segments, one after
/// the other. `read_image` of it is the image.
///
/// The only error is that memory ran out.
pub fn write_image(alloc: Global, image: &Image) -> Result<Vec<u8>, AllocError>
    requires { is_valid image.now ≡ true }
    ensures written { IfOk result (λ file. file.items ≡ model.written image.now) }
    ensures read_back { IfOk result (λ file. elf file.items ≡ Ok image.now) }
{
    let segments = image.segments.as_slice();
    let mut file = Vec::new(alloc);
    write_file_header(&mut file, image.entry, segments.len() as u16)?;
    let first_offset = (FILE_HEADER_SIZE + PROGRAM_HEADER_SIZE * segments.len()) as u64;
    write_segment_headers(&mut file, first_offset, segments)?;
    write_segment_bytes(&mut file, segments)?;
    Ok(file)
}

/// Adds the file header of an image with this entry and so many segments.
fn write_file_header(file: &mut Vec<u8>, entry: u64, count: u16) -> Result<(), AllocError>
    ensures { OnOk result (file.new.items ≡ file.old.items ++ model.file_header entry count) }
{
    file.extend_from_slice(&E_IDENT)?;
    file.extend_from_slice(&ET_EXEC.to_le_bytes())?;
    file.extend_from_slice(&EM_RISCV.to_le_bytes())?;
    file.extend_from_slice(&EV_CURRENT.to_le_bytes())?;
    file.extend_from_slice(&entry.to_le_bytes())?;
    file.extend_from_slice(&(FILE_HEADER_SIZE as u64).to_le_bytes())?;
    file.extend_from_slice(&0u64.to_le_bytes())?;
    file.extend_from_slice(&0u32.to_le_bytes())?;
    file.extend_from_slice(&(FILE_HEADER_SIZE as u16).to_le_bytes())?;
    file.extend_from_slice(&(PROGRAM_HEADER_SIZE as u16).to_le_bytes())?;
    file.extend_from_slice(&count.to_le_bytes())?;
    file.extend_from_slice(&[0; 6])?;
    Ok(())
}

/// Adds the program headers of segments whose bytes begin at the offset, one after the other.
fn write_segment_headers(
    file: &mut Vec<u8>,
    offset: u64,
    segments: &[Segment],
) -> Result<(), AllocError>
    requires { offset + length (model.segment_bytes segments.now) < 2 ^ 64 }
    ensures { OnOk result (file.new.items
        ≡ file.old.items ++ model.segment_headers offset segments.now) }
{
    match segments {
        [] => Ok(()),
        [first, rest @ ..] => {
            write_segment_header(file, offset, first)?;
            let behind = offset + first.bytes.as_slice().len() as u64;
            write_segment_headers(file, behind, rest)
        }
    }
}

/// Adds the program header of a segment whose bytes begin at the offset.
fn write_segment_header(
    file: &mut Vec<u8>,
    offset: u64,
    segment: &Segment,
) -> Result<(), AllocError>
    ensures { OnOk result (file.new.items
        ≡ file.old.items ++ model.segment_header offset segment.now) }
{
    let p_filesz = segment.bytes.as_slice().len() as u64;
    file.extend_from_slice(&PT_LOAD.to_le_bytes())?;
    file.extend_from_slice(&segment.flags.to_le_bytes())?;
    file.extend_from_slice(&offset.to_le_bytes())?;
    file.extend_from_slice(&segment.at.to_le_bytes())?;
    file.extend_from_slice(&segment.at.to_le_bytes())?;
    file.extend_from_slice(&p_filesz.to_le_bytes())?;
    file.extend_from_slice(&segment.size.to_le_bytes())?;
    file.extend_from_slice(&1u64.to_le_bytes())?;
    Ok(())
}

/// Adds the bytes of segments, one after the other.
fn write_segment_bytes(file: &mut Vec<u8>, segments: &[Segment]) -> Result<(), AllocError>
    ensures { OnOk result (file.new.items ≡ file.old.items ++ model.segment_bytes segments.now) }
{
    match segments {
        [] => Ok(()),
        [first, rest @ ..] => {
            file.extend_from_slice(first.bytes.as_slice())?;
            write_segment_bytes(file, rest)
        }
    }
}
