//! Starts of small images. All values are by hand: page 16 begins at 0x1_0000.

use image_model::{Bytes, Image, Region, Segment, Segments, Start};
use image_start::*;
use std::alloc::{AllocError, Global};
use std::test::Fail;

// The flags of segments.
pub const X: u32 = 1;

pub const W: u32 = 2;

pub const R: u32 = 4;

/// A segment with first bytes.
pub fn segment(
    alloc: Global,
    at: u64,
    flags: u32,
    size: u64,
    bytes: &[u8],
) -> Result<Segment, AllocError> {
    let bytes = Bytes::from_vec(Vec::from_slice(alloc, bytes)?);
    Ok(Segment {
        at,
        flags,
        size,
        bytes,
    })
}

/// The start of an image of the segments, and a stack of so many bytes.
pub fn started(alloc: Global, segments: Vec<Segment>, stack: u64) -> Result<Start, AllocError> {
    let image = Image {
        entry: 0x1_0000,
        segments: Segments::from_vec(segments),
    };
    start_of(alloc, &image, stack)
}

/// Pages that may be read, and also written or executed.
pub fn readable(page: u64, count: u64, w: bool, x: bool) -> Region {
    Region {
        page,
        count,
        r: true,
        w,
        x,
    }
}

/// The number of the page at the index of the start's pages.
pub fn page(start: &Start, index: usize) -> Option<u64> {
    Some(start.pages().get(index)?.page)
}

/// A byte of the page at the index of the start's pages.
pub fn byte(start: &Start, index: usize, at: usize) -> Option<u8> {
    start.pages().get(index)?.bytes.as_slice().get(at).copied()
}

#[test]
fn code_and_zeros_and_a_stack(rt: HostRuntime) -> Result<(), Fail> {
    let alloc = rt.alloc();
    let code = segment(alloc, 0x1_0000, R + X, 4, &[0x13, 5, 0, 7])?;
    let zeros = segment(alloc, 0x2_0000, R + W, 4096, &[])?;
    let start = started(alloc, vec![in alloc; code, zeros]?, 65_536)?;
    let regions = [
        readable(16, 1, false, true),
        readable(32, 1, true, false),
        readable(0x3ff_fff0, 16, true, false),
    ];
    assert_eq!(rt; start.entry(), 0x1_0000);
    assert_eq!(rt; start.regions(), regions.as_slice());
    assert_eq!(rt; start.pages().len(), 1);
    assert_eq!(rt; page(&start, 0), Some(16));
    assert_eq!(rt; byte(&start, 0, 0), Some(0x13));
    assert_eq!(rt; byte(&start, 0, 3), Some(7));
    assert_eq!(rt; byte(&start, 0, 4), Some(0));
    assert_eq!(rt; byte(&start, 0, 4095), Some(0));
    assert_eq!(rt; byte(&start, 0, 4096), None);
    Ok(())
}

/// The third segment begins at the second byte of the first, whose bytes count.
#[test]
fn segments_that_share_a_page(rt: HostRuntime) -> Result<(), Fail> {
    let alloc = rt.alloc();
    let first = segment(alloc, 0x1_0000, R, 2, &[1, 2])?;
    let second = segment(alloc, 0x1_0800, X, 1, &[3])?;
    let third = segment(alloc, 0x1_0001, W, 2, &[9, 8])?;
    let start = started(alloc, vec![in alloc; first, second, third]?, 0)?;
    assert_eq!(rt; start.regions(), [readable(16, 1, true, true)].as_slice());
    assert_eq!(rt; start.pages().len(), 1);
    assert_eq!(rt; byte(&start, 0, 0), Some(1));
    assert_eq!(rt; byte(&start, 0, 1), Some(2));
    assert_eq!(rt; byte(&start, 0, 2), Some(8));
    assert_eq!(rt; byte(&start, 0, 3), Some(0));
    assert_eq!(rt; byte(&start, 0, 0x800), Some(3));
    Ok(())
}

/// It is on page 16, which the other makes readable, and on page 17, which nothing does.
#[test]
fn a_segment_without_flags(rt: HostRuntime) -> Result<(), Fail> {
    let alloc = rt.alloc();
    let none = segment(alloc, 0x1_0ffe, 0, 4, &[1, 2, 3, 4])?;
    let other = segment(alloc, 0x1_0800, R, 1, &[])?;
    let start = started(alloc, vec![in alloc; none, other]?, 0)?;
    assert_eq!(rt; start.regions(), [readable(16, 1, false, false)].as_slice());
    assert_eq!(rt; start.pages().len(), 1);
    assert_eq!(rt; page(&start, 0), Some(16));
    assert_eq!(rt; byte(&start, 0, 0xffd), Some(0));
    assert_eq!(rt; byte(&start, 0, 0xffe), Some(1));
    assert_eq!(rt; byte(&start, 0, 0xfff), Some(2));
    Ok(())
}

/// 2^37 bytes of zeros, and then more than there are addresses.
#[test]
fn huge_segments_and_stacks(rt: HostRuntime) -> Result<(), Fail> {
    let alloc = rt.alloc();
    let half = segment(alloc, 0x1_0000, R + W, 1 << 37, &[])?;
    let start = started(alloc, vec![in alloc; half]?, 0)?;
    assert_eq!(rt;
        start.regions(),
        [readable(16, 1 << 25, true, false)].as_slice()
    );
    assert_eq!(rt; start.pages().len(), 0);
    let endless = segment(alloc, 0x1_0000, R + X, u64::MAX, &[])?;
    let start = started(alloc, vec![in alloc; endless]?, u64::MAX)?;
    let regions = [
        readable(0, 16, true, false),
        readable(16, (1 << 26) - 16, true, true),
    ];
    assert_eq!(rt; start.regions(), regions.as_slice());
    let outside = segment(alloc, 1 << 38, R, 1, &[1])?;
    let start = started(alloc, vec![in alloc; outside]?, 0)?;
    assert_eq!(rt; start.regions().len(), 0);
    assert_eq!(rt; start.pages().len(), 0);
    Ok(())
}

/// The first goes up to the second's page, and has bytes on two pages.
#[test]
fn neighbours_of_equal_permission(rt: HostRuntime) -> Result<(), Fail> {
    let alloc = rt.alloc();
    let later = segment(alloc, 0x1_2000, R, 4097, &[])?;
    let first = segment(alloc, 0x1_0fff, R, 4097, &[5, 6])?;
    let start = started(alloc, vec![in alloc; later, first]?, 0)?;
    assert_eq!(rt; start.regions(), [readable(16, 4, false, false)].as_slice());
    assert_eq!(rt; start.pages().len(), 2);
    assert_eq!(rt; page(&start, 0), Some(16));
    assert_eq!(rt; byte(&start, 0, 4095), Some(5));
    assert_eq!(rt; page(&start, 1), Some(17));
    assert_eq!(rt; byte(&start, 1, 0), Some(6));
    assert_eq!(rt; byte(&start, 1, 1), Some(0));
    Ok(())
}
