//! The public calls, each once, and which images are valid.

use image_model::*;
use std::alloc::{AllocError, Global};
use std::test::Fail;

/// The address, flags, size and number of file bytes of a segment.
type Row = (u64, u32, u64, usize);

/// A page of code.
const CODE: Row = (0x1000, 5, 0x1000, 8);

#[test]
fn a_start_shows_its_parts(rt: HostRuntime) -> Result<(), Fail> {
    let alloc = rt.alloc();
    let region = Region {
        page: 16,
        count: 2,
        r: true,
        w: false,
        x: true,
    };
    let bytes = Bytes::from_vec(vec![in alloc; 7; 4096]?);
    let regions = vec![in alloc; region]?;
    let pages = vec![in alloc; PageBytes { page: 17, bytes }]?;
    let start = Start::new(0x1_0004, regions, pages);
    assert_eq!(rt; start.entry(), 0x1_0004);
    assert_eq!(rt; start.regions(), [region].as_slice());
    assert_eq!(rt; start.pages().len(), 1);
    assert_eq!(rt; start.pages()[0].page, 17);
    let shown = start.pages()[0].bytes.as_slice();
    assert_eq!(rt; shown.len(), 4096);
    assert_eq!(rt; shown.iter().filter(|byte| **byte == 7).count(), 4096);
    Ok(())
}

#[test]
fn an_image_shows_its_segments(rt: HostRuntime) -> Result<(), Fail> {
    let alloc = rt.alloc();
    let bytes = Bytes::from_vec(vec![in alloc; 0x13, 0, 0, 0]?);
    let segment = Segment {
        at: 0x1_0000,
        flags: 5,
        size: 8,
        bytes,
    };
    let segments = Segments::from_vec(vec![in alloc; segment]?);
    assert_eq!(rt; segments.as_slice().len(), 1);
    let image = Image {
        entry: 0x1_0000,
        segments,
    };
    for segment in image.segments.into_vec() {
        assert_eq!(rt;
            segment.bytes.into_vec().as_slice(),
            [0x13, 0, 0, 0].as_slice()
        );
    }
    Ok(())
}

/// Whether the image with the entry and the segments is valid.
fn is_valid(alloc: Global, entry: u64, rows: &[Row]) -> Result<bool, AllocError> {
    let mut list = Vec::new(alloc);
    for &(at, flags, size, length) in rows {
        let bytes = Bytes::from_vec(vec![in alloc; 0; length]?);
        list.push(Segment {
            at,
            flags,
            size,
            bytes,
        })?;
    }
    let segments = Segments::from_vec(list);
    Ok(Image { entry, segments }.is_valid())
}

#[test]
fn valid_images(rt: HostRuntime) -> Result<(), Fail> {
    let alloc = rt.alloc();
    let rows: [(u64, [Row; 2]); 8] = [
        // Code and data that touch.
        (0x1000, [CODE, (0x2000, 6, 0x1000, 0x1000)]),
        // The last instruction of a page, whose first byte alone is the code's.
        (0x1ffc, [(0x1000, 1, 1, 0), (0x1001, 7, 1, 1)]),
        // The first instruction of a page, whose last byte alone is the code's.
        (0x1000, [(0x1fff, 1, 1, 0), (0x2000, 0, 1, 0)]),
        // The entry is on the last page of a segment.
        (0x2000, [(0x1000, 1, 0x1001, 0), (0x3000, 0, 1, 0)]),
        // Up to the highest address, in falling order.
        (0x1000, [(0x3f_bfff_f000, 6, 0x1000, 0), CODE]),
        (0x1000, [CODE, (0x2000, 6, 0x3f_bfff_e000, 0)]),
        (0x1000, [CODE, (0x1000_0000, 6, 0x3f_b000_0000, 0)]),
        // A file of 16,777,216 bytes.
        (0x1000, [CODE, (0x2000, 6, 0x100_0000, 16_777_032)]),
    ];
    for (entry, segments) in rows {
        assert!(rt; is_valid(alloc, entry, &segments)?);
    }
    Ok(())
}

#[test]
fn images_with_one_fault(rt: HostRuntime) -> Result<(), Fail> {
    let alloc = rt.alloc();
    let rows: [(u64, [Row; 2]); 19] = [
        // No memory.
        (0x1000, [CODE, (0x2000, 6, 0, 0)]),
        // Too low, also at 0.
        (0x1000, [CODE, (0xfff, 6, 1, 0)]),
        (0x1000, [CODE, (0, 6, 1, 0)]),
        // Too high by one, and ends at 2^64 and above.
        (0x1000, [CODE, (0x3f_bfff_f000, 6, 0x1001, 0)]),
        (0x1000, [CODE, (0x3f_c000_0000, 6, 1, 0)]),
        (0x1000, [CODE, (0xffff_ffff_ffff_f000, 6, 0x1000, 0)]),
        (0x1000, [CODE, (0xffff_ffff_ffff_f000, 6, 0x4000, 0)]),
        (0x1000, [CODE, (0x2000, 6, 0xffff_ffff_ffff_ffff, 0)]),
        // A flag beyond execute, write and read.
        (0x1000, [CODE, (0x2000, 8, 1, 0)]),
        // More bytes than memory.
        (0x1000, [CODE, (0x2000, 6, 1, 2)]),
        // One address twice, at either end, and a segment within another.
        (0x1000, [CODE, (0x1fff, 6, 2, 0)]),
        (0x2000, [(0x2000, 5, 0x1000, 0), (0x1fff, 6, 2, 0)]),
        (0x1000, [CODE, (0x1800, 6, 1, 0)]),
        // The entry is between two instructions.
        (0x1002, [CODE, (0x2000, 6, 1, 0)]),
        // The entry's page has no byte of code: data, nothing, and the pages beside it.
        (0x2000, [CODE, (0x2000, 6, 1, 0)]),
        (0x2000, [CODE, (0x3000, 6, 1, 0)]),
        (0xffc, [CODE, (0x2000, 6, 1, 0)]),
        (0xffff_ffff_ffff_fffc, [CODE, (0x2000, 6, 1, 0)]),
        // A file of 16,777,217 bytes.
        (0x1000, [CODE, (0x2000, 6, 0x100_0000, 16_777_033)]),
    ];
    for (entry, segments) in rows {
        assert!(rt; !is_valid(alloc, entry, &segments)?);
    }
    Ok(())
}

#[test]
fn sixteen_segments_at_most(rt: HostRuntime) -> Result<(), Fail> {
    let alloc = rt.alloc();
    let mut rows = Vec::new(alloc);
    for page in 1..17u32 {
        rows.push((u64::from(page) * 0x1000, 5, 0x1000, 4))?;
    }
    assert!(rt; is_valid(alloc, 0x1000, &rows)?);
    rows.push((0x1_1000, 5, 0x1000, 4))?;
    assert!(rt; !is_valid(alloc, 0x1000, &rows)?);
    Ok(())
}

#[test]
fn no_segments(rt: HostRuntime) -> Result<(), Fail> {
    assert!(rt; !is_valid(rt.alloc(), 0, &[])?);
    Ok(())
}
