//! Starts of many regions or pages, and stacks around whole pages. All values are by hand.

use crate::tests::{R, W, X, byte, page, readable, segment, started};
use image_model::{Segment, Start};
use std::alloc::{AllocError, Global};
use std::test::Fail;

/// Sixteen segments of this size with a byte each, which begin 0x2000 bytes from one another. Every
/// other one may be executed alone, and the others be read.
fn sixteen(alloc: Global, size: u64) -> Result<Vec<Segment>, AllocError> {
    let mut segments = Vec::new(alloc);
    for number in 0..16u32 {
        let flags = if number % 2 == 0 { R } else { X };
        let at = 0x1_0800 + u64::from(number) * 0x2000;
        segments.push(segment(alloc, at, flags, size, &[7])?)?;
    }
    Ok(segments)
}

/// The page and the number of pages of the region at the index.
fn region(start: &Start, index: usize) -> Option<(u64, u64)> {
    let region = start.regions().get(index)?;
    Some((region.page, region.count))
}

#[test]
fn sixteen_segments_apart_and_a_stack(rt: HostRuntime) -> Result<(), Fail> {
    let segments = sixteen(rt.alloc(), 0x800)?;
    let start = started(rt.alloc(), segments, 4096)?;
    assert_eq!(rt; start.regions().len(), 17);
    assert_eq!(rt; region(&start, 15), Some((46, 1)));
    assert_eq!(rt; region(&start, 16), Some((0x3ff_ffff, 1)));
    assert_eq!(rt; start.pages().len(), 16);
    assert_eq!(rt; page(&start, 15), Some(46));
    assert_eq!(rt; byte(&start, 15, 0x800), Some(7));
    Ok(())
}

/// Each page on which one ends and the next begins may be read and executed: sixteen regions of one
/// segment, fifteen of two, and the stack.
#[test]
fn sixteen_segments_that_share_pages(rt: HostRuntime) -> Result<(), Fail> {
    let segments = sixteen(rt.alloc(), 0x2000)?;
    let start = started(rt.alloc(), segments, 4096)?;
    assert_eq!(rt; start.regions().len(), 32);
    assert_eq!(rt; region(&start, 0), Some((16, 2)));
    assert_eq!(rt; region(&start, 1), Some((18, 1)));
    assert_eq!(rt; region(&start, 29), Some((46, 1)));
    assert_eq!(rt; region(&start, 30), Some((47, 2)));
    assert_eq!(rt; start.pages().len(), 16);
    Ok(())
}

/// The start of a segment of so many bytes that begins at the second byte of page 16.
fn start_of_bytes(alloc: Global, size: usize) -> Result<Start, AllocError> {
    let bytes = vec![in alloc; 7; size]?;
    let segment = segment(alloc, 0x1_0001, R + X, size as u64, &bytes)?;
    started(alloc, vec![in alloc; segment]?, 0)
}

/// 2^18 and 2^24 bytes: a byte is on the last page.
#[test]
fn many_pages(rt: HostRuntime) -> Result<(), Fail> {
    for (size, last) in [(0x4_0000, 64), (0x100_0000, 4096)] {
        let start = start_of_bytes(rt.alloc(), size)?;
        assert_eq!(rt; start.pages().len(), last + 1);
        assert_eq!(rt; region(&start, 0), Some((16, last as u64 + 1)));
        assert_eq!(rt; page(&start, last), Some(16 + last as u64));
        assert_eq!(rt; byte(&start, 0, 0), Some(0));
        assert_eq!(rt; byte(&start, last - 1, 4095), Some(7));
        assert_eq!(rt; byte(&start, last, 0), Some(7));
        assert_eq!(rt; byte(&start, last, 1), Some(0));
    }
    Ok(())
}

/// Memory up to the highest address of a segment, most of all addresses.
#[test]
fn most_of_memory(rt: HostRuntime) -> Result<(), Fail> {
    let alloc = rt.alloc();
    let large = segment(alloc, 0x1000_0000, W, 0x3f_b000_0000, &[])?;
    let start = started(alloc, vec![in alloc; large]?, 4096)?;
    let regions = [
        readable(0x1_0000, 0x3fb_0000, true, false),
        readable(0x3ff_ffff, 1, true, false),
    ];
    assert_eq!(rt; start.regions(), regions.as_slice());
    assert_eq!(rt; start.pages().len(), 0);
    Ok(())
}

/// A stack ends at 2^38. Of a page that it begins within it has no part.
#[test]
fn stacks(rt: HostRuntime) -> Result<(), Fail> {
    let rows = [
        (0, 0),
        (4095, 0),
        (4096, 1),
        (8191, 1),
        (8192, 2),
        (0x100_0000, 4096),
    ];
    for (size, pages) in rows {
        let start = started(rt.alloc(), Vec::new(rt.alloc()), size)?;
        let found = region(&start, 0).unwrap_or((0x400_0000, 0));
        assert_eq!(rt; found, (0x400_0000 - pages, pages), "at {size}");
    }
    Ok(())
}
