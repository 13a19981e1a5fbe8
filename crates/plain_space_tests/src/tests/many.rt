//! More than a thousand pages: they are opened, deployed, written and captured.

ghost use Rattle.std.specs.Prelude.{◌≡◌, true, false, length, None, IfSome};

use super::stores::{above, captured};
use image_model::{Bytes, Image, PAGE_SIZE, Segment, Segments, Start};
use image_start::start_of;
use plain_space::{PlainShelf, PlainStore};
use space_api::{Space, Store};
use std::alloc::Global;
use std::process::Abort;
use std::test::Fail;

/// The first page that may be written.
const FIRST: u64 = 16;

/// The last page with a byte of the image.
const FILLED: u64 = 1_040;

/// The page behind those that may be written.
const END: u64 = 1_516;

/// The address of a place on a page.
fn at(page: u64, place: u64) -> u64 {
    page.wrapping_mul(PAGE_SIZE).wrapping_add(place)
}

/// A start with 2^22 sevens, from the fifth byte of the first page on to the fourth of the 1,025th.
fn start(alloc: Global) -> Option<Start> {
    let entry = 0x1_0004;
    let segment = Segment {
        at: entry,
        flags: 6,
        size: 1_499 * PAGE_SIZE,
        bytes: Bytes::from_vec(vec![in alloc; 7; 0x40_0000].ok()?),
    };
    let segments = Segments::from_vec(vec![in alloc; segment].ok()?);
    start_of(alloc, &Image { entry, segments }, 0).ok()
}

/// That start alone.
fn starts(alloc: Global) -> Option<Vec<Start>>
    ensures { IfSome result (λ starts. length starts.items ≡ 1) }
{
    vec![in alloc; start(alloc)?].ok()
}

/// Writes its number to the end of each page. Tells whether all were written.
fn writes<S: Space>(space: &mut S) -> bool
    requires { S.finished space.old ≡ true }
    ensures { S.finished space.new ≡ true }
{
    let mut all = true;
    for page in FIRST..END {
        all = space.store(at(page, 4_088), 8, page).is_ok() && all;
    }
    all
}

/// Tells whether each page ends with its number.
fn reads<S: Space>(space: &mut S) -> bool
    requires { S.finished space.old ≡ true }
    ensures { S.finished space.new ≡ true }
{
    let mut all = true;
    for page in FIRST..END {
        all = space.load(at(page, 4_088), 8) == Ok(page) && all;
    }
    all
}

/// Each page of a space is written and captured, and a space above has them.
fn keeps_many<R: Abort, T: Store>(
    rt: &R,
    alloc: Global,
    store: &T,
    shelf: &mut T::Shelf,
) -> Result<(), Fail>
    requires takes { T.Space.takes_frames ≡ false }
    requires one { length (T.starts store.now) ≡ 1 }
{
    let mut image = store.open_image(alloc, shelf, 0)?;
    let mut space = above(alloc, store, shelf, &mut image)?;
    assert_eq!(rt; space.load(at(FIRST, 0), 8), Ok(0x0707_0707_0000_0000));
    assert_eq!(rt; space.load(at(FILLED, 0), 8), Ok(0x0707_0707));
    assert!(rt; writes(&mut space));
    let (mut frozen, mut space, pages) = captured(alloc, store, space).ok_or("no capture")?;
    assert_eq!(rt; pages, 1_500);
    assert!(rt; reads(&mut space));
    let mut space = above(alloc, store, shelf, &mut frozen)?;
    assert!(rt; reads(&mut space));
    assert_eq!(rt; space.load(at(FILLED, 0), 8), Ok(0x0707_0707));
    Ok(())
}

#[test]
fn many_pages_are_kept(rt: HostRuntime) -> Result<(), Fail> {
    let starts = starts(rt.alloc()).ok_or("no start")?;
    let store = PlainStore::open(&starts)?;
    let mut shelf = PlainShelf::new(0);
    keeps_many(&rt, rt.alloc(), &store, &mut shelf)
}
