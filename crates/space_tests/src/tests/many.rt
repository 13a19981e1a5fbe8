//! A space of an image with as many segments as there may be, and with many pages.

use counted_space::CountedSpace;
use image_model::{Bytes, Image, Segment, Segments};
use image_start::start_of;
use space_api::Space;
use std::alloc::{AllocError, Global};
use std::test::Fail;

/// Where 1,000 pages begin that may be read and written.
const WIDE: u64 = 0x20_0000;

const PAGES: u64 = 1000;

/// A segment of so many bytes, the first of which these are.
fn segment(at: u64, flags: u32, size: u64, bytes: Vec<u8>) -> Segment {
    Segment {
        at,
        flags,
        size,
        bytes: Bytes::from_vec(bytes),
    }
}

/// The 1,000 pages, of which 70 have file bytes, and fifteen pages apart from each other.
fn segments(alloc: Global) -> Result<Vec<Segment>, AllocError> {
    let mut segments = Vec::new(alloc);
    let bytes = vec![in alloc; 7; 70 * 4096]?;
    segments.push(segment(WIDE, 6, PAGES * 4096, bytes))?;
    for n in 0..15u64 {
        let at = 0x100_0000 + n * 0x2000;
        segments.push(segment(at, 4, 0x1000, Vec::new(alloc)))?;
    }
    Ok(segments)
}

/// A space with no spares of these segments and a stack, which are seventeen regions.
fn space_of(alloc: Global) -> Option<CountedSpace> {
    let image = Image {
        entry: 0x1_0000,
        segments: Segments::from_vec(segments(alloc).ok()?),
    };
    let start = start_of(alloc, &image, 65_536).ok()?;
    CountedSpace::of(alloc, &start, 0).ok()
}

/// How many frames the first write of one of the 1,000 pages takes, where those before it were
/// written: the first is the first of 262,144 pages, and each 512th the first of 512.
fn need(page: u64) -> u32 {
    match page {
        0 => 3,
        512 => 2,
        _ => 1,
    }
}

/// Whether each of the pages has the byte that it had, is written for its frames, and is written
/// again for none.
fn fills(space: &mut CountedSpace) -> bool {
    let mut fits = true;
    for page in 0..PAGES {
        let at = WIDE + page * 4096;
        let first = if page < 70 { 7 } else { 0 };
        fits = fits && space.load(at + 4095, 1) == Ok(first);
        space.refill(need(page));
        fits = fits && space.store(at, 8, page).is_ok() && space.held() == 0;
        fits = fits && space.store(at + 4088, 8, page).is_ok();
    }
    fits
}

/// Whether each of the pages is written and read again.
fn fills_again(space: &mut CountedSpace) -> bool {
    let mut fits = true;
    for page in 0..PAGES {
        let at = WIDE + page * 4096;
        fits = fits && space.load(at, 8) == Ok(page) && space.load(at + 4088, 8) == Ok(page);
        fits = fits && space.store(at, 8, page + 1).is_ok();
        fits = fits && space.load(at, 8) == Ok(page + 1);
    }
    fits
}

#[test]
fn many_pages_and_regions(rt: HostRuntime) -> Result<(), Fail> {
    let mut space = space_of(rt.alloc()).ok_or("no space")?;
    assert!(rt; fills(&mut space));
    assert!(rt; fills_again(&mut space));
    for n in 0..15u64 {
        assert_eq!(rt; space.load(0x100_0000 + n * 0x2000, 8), Ok(0), "{n}");
        assert!(rt; space.load(0x100_1000 + n * 0x2000, 1).is_err(), "{n}");
    }
    assert_eq!(rt; space.load(0x3f_ffff_0000, 8), Ok(0));
    Ok(())
}
