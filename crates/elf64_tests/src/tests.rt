//! The file of an image, byte by byte.

use elf64::read_image;
use elf64_write::*;
use image_model::{Bytes, Image, Segment, Segments};
use std::alloc::{AllocError, Global};
use std::test::Fail;

/// The file of `written_files`, by the tables of the System V ABI: the file header, a program
/// header for each of three segments, and the bytes of the first and the last.
const FILE: &str = "7f454c460201010000000000000000000200f300010000000400010000000000\
    4000000000000000000000000000000000000000400038000300000000000000\
    0100000005000000e80000000000000000000100000000000000010000000000\
    080000000000000000100000000000000100000000000000\
    0100000006000000f00000000000000000000200000000000000020000000000\
    000000000000000000080000000000000100000000000000\
    0100000004000000f00000000000000000001000000000000000100000000000\
    010000000000000001000000000000000100000000000000\
    130500007300000041";

#[test]
fn written_files(rt: HostRuntime) -> Result<(), Fail> {
    let alloc = rt.alloc();
    let code = vec![in alloc; 0x13, 5, 0, 0, 0x73, 0, 0, 0]?;
    let rows = [
        (0x1_0000, 5, 0x1000, code),
        (0x2_0000, 6, 0x800, Vec::new(alloc)),
        (0x10_0000, 4, 1, vec![in alloc; 0x41]?),
    ];
    let mut segments = Vec::new(alloc);
    for (at, flags, size, bytes) in rows {
        let bytes = Bytes::from_vec(bytes);
        segments.push(Segment {
            at,
            flags,
            size,
            bytes,
        })?;
    }
    let image = Image {
        entry: 0x1_0004,
        segments: Segments::from_vec(segments),
    };
    assert!(rt; image.is_valid());
    let file = write_image(alloc, &image)?;
    let mut printed = String::new(alloc);
    for byte in file.as_slice() {
        printed.push_str(format!(in alloc; "{byte:02x}")?.as_str())?;
    }
    assert_eq!(rt; printed.as_str(), FILE);
    Ok(())
}

/// Sixteen segments of a page, each on every other page, with two bytes each: the number of the
/// segment, and 0x73.
fn sixteen_segments(alloc: Global) -> Result<Vec<Segment>, AllocError> {
    let mut segments = Vec::new(alloc);
    for number in 1..17u8 {
        let bytes = Bytes::from_vec(vec![in alloc; number, 0x73]?);
        segments.push(Segment {
            at: 0x1000 + 0x2000 * u64::from(number),
            flags: 5,
            size: 0x1000,
            bytes,
        })?;
    }
    Ok(segments)
}

/// An image of the sixteen segments.
fn image_of_sixteen(alloc: Global) -> Result<Image, AllocError> {
    Ok(Image {
        entry: 0x3000,
        segments: Segments::from_vec(sixteen_segments(alloc)?),
    })
}

/// A file header, sixteen program headers and 32 bytes.
#[test]
fn sixteen_segments_are_read_back(rt: HostRuntime) -> Result<(), Fail> {
    let image = image_of_sixteen(rt.alloc())?;
    assert!(rt; image.is_valid());
    let file = write_image(rt.alloc(), &image)?;
    assert_eq!(rt; file.len(), 64 + 16 * 56 + 32);
    let segments = read_image(rt.alloc(), &file)?.segments.into_vec();
    assert_eq!(rt; segments.len(), 16);
    for (number, segment) in (1..17u8).zip(segments) {
        let at = 0x1000 + 0x2000 * u64::from(number);
        assert_eq!(rt; (segment.at, segment.flags, segment.size), (at, 5, 0x1000));
        assert_eq!(rt; segment.bytes.as_slice(), [number, 0x73].as_slice());
    }
    Ok(())
}
