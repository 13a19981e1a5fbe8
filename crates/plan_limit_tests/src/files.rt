//! Files of images at the limits, by hand.

use edge_files::MemFiles;
use std::alloc::{AllocError, Global};

/// The header of an ELF file with two segments whose run begins at 0x10000.
const HEADER: &[u8] = b"\x7fELF\x02\x01\x01\0\0\0\0\0\0\0\0\0\
    \x02\0\xf3\0\x01\0\0\0\0\0\x01\0\0\0\0\0\x40\0\0\0\0\0\0\0\
    \0\0\0\0\0\0\0\0\0\0\0\0\x40\0\x38\0\x02\0\0\0\0\0\0\0";

/// Adds the header of a segment with these flags at this address, of so many bytes from offset
/// 176 on.
fn add_segment(file: &mut Vec<u8>, flags: u32, at: u32, size: u32) -> Result<(), AllocError> {
    let memory = size.max(0x1000);
    for word in [1, flags, 176, 0, at, 0, at, 0, size, 0, memory, 0, 1, 0] {
        file.extend_from_slice(&word.to_le_bytes())?;
    }
    Ok(())
}

/// An ELF file of so many bytes and 176, with code at 0x10000 and data at 0x1000000, which have so
/// many of them each.
fn image(alloc: Global, bytes: usize, code: u32, data: u32) -> Result<Vec<u8>, AllocError> {
    let mut file = HEADER.to_vec(alloc)?;
    add_segment(&mut file, 5, 0x10000, code)?;
    add_segment(&mut file, 6, 0x100_0000, data)?;
    file.extend_from_slice(&vec![in alloc; 0; bytes]?)?;
    Ok(file)
}

/// A good image of 176 bytes and 68, which are loaded, and a file that is none.
fn add_small(alloc: Global, files: &mut MemFiles) -> Result<(), AllocError> {
    files.add("count", image(alloc, 68, 68, 0)?)?;
    files.add("short", Vec::new(alloc))
}

/// Images that load 68 bytes: one of 2^24 bytes, one of a byte more, one that with `count` has 2^24
/// bytes, and one that has a byte more.
fn add_long(alloc: Global, files: &mut MemFiles) -> Result<(), AllocError> {
    files.add("large", image(alloc, 16_777_216 - 176, 68, 0)?)?;
    files.add("huge", image(alloc, 16_777_217 - 176, 68, 0)?)?;
    files.add("rest", image(alloc, 16_777_216 - 244 - 176, 68, 0)?)?;
    files.add("more", image(alloc, 16_777_217 - 244 - 176, 68, 0)?)
}

/// Images that load the same 2^23 bytes twice: one loads all of them, one 68 less, and one 67 less.
fn add_loaded(alloc: Global, files: &mut MemFiles) -> Result<(), AllocError> {
    let half = 0x80_0000;
    files.add("twice", image(alloc, half, half as u32, half as u32)?)?;
    files.add("part", image(alloc, half, half as u32, half as u32 - 68)?)?;
    files.add("over", image(alloc, half, half as u32, half as u32 - 67)?)
}

/// All of these files.
pub fn files(alloc: Global) -> Result<MemFiles, AllocError> {
    let mut files = MemFiles::new(alloc, Vec::new(alloc));
    add_small(alloc, &mut files)?;
    add_long(alloc, &mut files)?;
    add_loaded(alloc, &mut files)?;
    Ok(files)
}

/// A good image, as the file of this name alone.
pub fn file_named(alloc: Global, name: &str) -> Result<MemFiles, AllocError> {
    let mut files = MemFiles::new(alloc, Vec::new(alloc));
    files.add(name, image(alloc, 68, 68, 0)?)?;
    Ok(files)
}
