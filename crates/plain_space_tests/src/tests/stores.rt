//! The calls of a store, through its trait.

ghost use Rattle.std.specs.Prelude.{◌≡◌, ◌<◌, true, false, length, None, IfOk, IfSome};

use super::starts::starts;
use plain_space::{PlainShelf, PlainStore};
use space_api::{Captured, Space, Stock, Store};
use std::alloc::Global;
use std::process::Abort;
use std::test::Fail;

/// Where a page of data begins, and the page behind it, of which nothing was said.
const DATA: u64 = 0x1_2000;

const ZEROS: u64 = 0x1_3000;

/// A space of this start, which may run.
fn deployed_of<T: Store>(
    alloc: Global,
    store: &T,
    shelf: &mut T::Shelf,
    start: u16,
) -> Result<T::Space, Fail>
    requires takes { T.Space.takes_frames ≡ false }
    requires within { start < length (T.starts store.now) }
    ensures { IfOk result (λ space. T.Space.finished space ≡ true) }
{
    let mut image = store.open_image(alloc, shelf, start)?;
    let mut space = store.deploy(alloc, &mut image, shelf)?;
    store.finish_deploy(&mut space);
    Ok(space)
}

/// A space of the first start, which may run.
pub fn deployed<T: Store>(alloc: Global, store: &T, shelf: &mut T::Shelf) -> Result<T::Space, Fail>
    requires takes { T.Space.takes_frames ≡ false }
    requires within { 0 < length (T.starts store.now) }
    ensures { IfOk result (λ space. T.Space.finished space ≡ true) }
{
    deployed_of(alloc, store, shelf, 0)
}

/// What a capture gives: the frozen memory, the space that goes on, and how many pages were
/// written.
pub fn captured<T: Store>(
    alloc: Global,
    store: &T,
    space: T::Space,
) -> Option<(T::Frozen, T::Space, u32)>
    requires takes { T.Space.takes_frames ≡ false }
    requires finished { T.Space.finished space ≡ true }
    ensures space { IfSome result (λ r. T.Space.finished r.1 ≡ true) }
    ensures frozen { IfSome result (λ r. T.Frozen.pin r.0 ≡ None) }
{
    match store.capture(alloc, space) {
        Captured::Done {
            frozen,
            space,
            pages,
        } => Some((frozen, space, pages)),
        Captured::NeedFrames(_) => None,
        Captured::Memory(_) => None,
    }
}

/// A space above frozen memory, which may run.
pub fn above<T: Store>(
    alloc: Global,
    store: &T,
    shelf: &mut T::Shelf,
    below: &mut T::Frozen,
) -> Result<T::Space, Fail>
    requires takes { T.Space.takes_frames ≡ false }
    requires loose { T.Frozen.pin below.old ≡ None }
    ensures finished { IfOk result (λ space. T.Space.finished space ≡ true) }
    ensures loose { T.Frozen.pin below.new ≡ None }
{
    let mut space = store.deploy(alloc, below, shelf)?;
    store.finish_deploy(&mut space);
    Ok(space)
}

/// Each image has the bytes of its start, and what is written in a space of it stays there.
fn deploys<R: Abort, T: Store>(
    rt: &R,
    alloc: Global,
    store: &T,
    shelf: &mut T::Shelf,
) -> Result<(), Fail>
    requires takes { T.Space.takes_frames ≡ false }
    requires two { length (T.starts store.now) ≡ 2 }
{
    let mut image = store.open_image(alloc, shelf, 1)?;
    let mut first = above(alloc, store, shelf, &mut image)?;
    assert_eq!(rt; first.store(DATA, 1, 9), Ok(()));
    let mut second = above(alloc, store, shelf, &mut image)?;
    assert_eq!(rt; first.load(DATA, 2), Ok(0x0509));
    assert_eq!(rt; second.load(DATA, 2), Ok(0x0505));
    assert_eq!(rt; second.load(ZEROS, 8), Ok(0));
    Ok(())
}

#[test]
fn spaces_of_an_image_share_nothing(rt: HostRuntime) -> Result<(), Fail> {
    let starts = starts(rt.alloc())?;
    let store = PlainStore::open(&starts)?;
    let mut shelf = PlainShelf::new(0);
    deploys(&rt, rt.alloc(), &store, &mut shelf)
}

/// A capture counts the pages that were written, each once, also where their bytes came back
/// equal or are zeros, and counts anew from then on.
fn counts<R: Abort, T: Store>(
    rt: &R,
    alloc: Global,
    store: &T,
    shelf: &mut T::Shelf,
) -> Result<(), Fail>
    requires takes { T.Space.takes_frames ≡ false }
    requires two { length (T.starts store.now) ≡ 2 }
{
    let space = deployed(alloc, store, shelf)?;
    let (_, mut space, pages) = captured(alloc, store, space).ok_or("no capture")?;
    assert_eq!(rt; pages, 0);
    assert_eq!(rt; space.store(DATA, 8, 0x0707_0707_0707_0707), Ok(()));
    assert_eq!(rt; space.store(ZEROS, 8, 0), Ok(()));
    assert_eq!(rt; space.store(ZEROS + 8, 8, 0), Ok(()));
    let (_, space, pages) = captured(alloc, store, space).ok_or("no capture")?;
    assert_eq!(rt; pages, 2);
    let (_, _, pages) = captured(alloc, store, space).ok_or("no capture")?;
    assert_eq!(rt; pages, 0);
    Ok(())
}

#[test]
fn a_capture_counts_written_pages(rt: HostRuntime) -> Result<(), Fail> {
    let starts = starts(rt.alloc())?;
    let store = PlainStore::open(&starts)?;
    let mut shelf = PlainShelf::new(0);
    counts(&rt, rt.alloc(), &store, &mut shelf)
}

/// What was captured keeps its bytes, whatever the space that goes on and those above it write.
fn captures<R: Abort, T: Store>(
    rt: &R,
    alloc: Global,
    store: &T,
    shelf: &mut T::Shelf,
) -> Result<(), Fail>
    requires takes { T.Space.takes_frames ≡ false }
    requires two { length (T.starts store.now) ≡ 2 }
{
    let mut space = deployed(alloc, store, shelf)?;
    assert_eq!(rt; space.store(ZEROS - 1, 2, 0x0b0a), Ok(()));
    let (mut frozen, mut space, _) = captured(alloc, store, space).ok_or("no capture")?;
    assert_eq!(rt; space.load(ZEROS - 1, 2), Ok(0x0b0a));
    assert_eq!(rt; space.store(ZEROS, 1, 0xcc), Ok(()));
    let mut first = above(alloc, store, shelf, &mut frozen)?;
    assert_eq!(rt; first.store(ZEROS, 1, 0xdd), Ok(()));
    let mut second = above(alloc, store, shelf, &mut frozen)?;
    assert_eq!(rt; second.load(ZEROS - 2, 4), Ok(0x000b_0a07));
    assert_eq!(rt; space.load(ZEROS, 1), Ok(0xcc));
    Ok(())
}

#[test]
fn what_was_captured_stays(rt: HostRuntime) -> Result<(), Fail> {
    let starts = starts(rt.alloc())?;
    let store = PlainStore::open(&starts)?;
    let mut shelf = PlainShelf::new(0);
    captures(&rt, rt.alloc(), &store, &mut shelf)
}

/// A page that is written full of zeros stays so above what was captured.
fn clears<R: Abort, T: Store>(
    rt: &R,
    alloc: Global,
    store: &T,
    shelf: &mut T::Shelf,
) -> Result<(), Fail>
    requires takes { T.Space.takes_frames ≡ false }
    requires two { length (T.starts store.now) ≡ 2 }
{
    let mut space = deployed(alloc, store, shelf)?;
    let zeros = vec![in alloc; 0; 4096]?;
    assert_eq!(rt; space.write_from(DATA, &zeros), Ok(()));
    let (mut frozen, _, pages) = captured(alloc, store, space).ok_or("no capture")?;
    assert_eq!(rt; pages, 1);
    let mut space = above(alloc, store, shelf, &mut frozen)?;
    assert_eq!(rt; space.load(DATA + 4088, 8), Ok(0));
    assert_eq!(rt; space.store(DATA, 1, 1), Ok(()));
    let (_, _, pages) = captured(alloc, store, space).ok_or("no capture")?;
    assert_eq!(rt; pages, 1);
    Ok(())
}

#[test]
fn a_page_of_zeros_stays(rt: HostRuntime) -> Result<(), Fail> {
    let starts = starts(rt.alloc())?;
    let store = PlainStore::open(&starts)?;
    let mut shelf = PlainShelf::new(0);
    clears(&rt, rt.alloc(), &store, &mut shelf)
}

/// Nothing is spare, and nothing comes back.
fn gives_nothing<R: Abort, T: Store>(
    rt: &R,
    alloc: Global,
    store: &T,
    shelf: &mut T::Shelf,
) -> Result<(), Fail>
    requires takes { T.Space.takes_frames ≡ false }
    requires two { length (T.starts store.now) ≡ 2 }
{
    let mut space = deployed(alloc, store, shelf)?;
    assert_eq!(rt; store.refill(shelf, &mut space), 0);
    let spares = store.strip(&mut space);
    assert_eq!(rt; store.count(&spares), 0);
    store.give_back(shelf, spares);
    let (frozen, space, _) = captured(alloc, store, space).ok_or("no capture")?;
    let spares = store.release_space(space);
    assert_eq!(rt; store.count(&spares), 0);
    store.give_back(shelf, spares);
    let spares = store.release_frozen(frozen);
    assert_eq!(rt; store.count(&spares), 0);
    store.give_back(shelf, spares);
    Ok(())
}

#[test]
fn no_frames_go_or_come(rt: HostRuntime) -> Result<(), Fail> {
    let starts = starts(rt.alloc())?;
    let store = PlainStore::open(&starts)?;
    let mut shelf = PlainShelf::new(131_072);
    gives_nothing(&rt, rt.alloc(), &store, &mut shelf)?;
    assert_eq!(rt; store.free(&shelf), 131_072);
    assert_eq!(rt; shelf.free(), 131_072);
    Ok(())
}

/// A space may run after its pin as before.
fn pins<R: Abort, T: Store>(
    rt: &R,
    alloc: Global,
    store: &T,
    shelf: &mut T::Shelf,
) -> Result<(), Fail>
    requires takes { T.Space.takes_frames ≡ false }
    requires two { length (T.starts store.now) ≡ 2 }
{
    let space = deployed(alloc, store, shelf)?;
    let (mut frozen, mut space, _) = captured(alloc, store, space).ok_or("no capture")?;
    store.pin_space(shelf, &mut space);
    store.pin_frozen(shelf, &mut frozen);
    store.weigh(shelf);
    store.unpin_frozen(shelf, &mut frozen);
    store.unpin_space(shelf, &mut space);
    assert_eq!(rt; space.load(DATA, 1), Ok(7));
    let mut space = above(alloc, store, shelf, &mut frozen)?;
    assert_eq!(rt; space.load(DATA, 1), Ok(7));
    Ok(())
}

#[test]
fn pins_change_nothing(rt: HostRuntime) -> Result<(), Fail> {
    let starts = starts(rt.alloc())?;
    let store = PlainStore::open(&starts)?;
    let mut shelf = PlainShelf::new(3);
    pins(&rt, rt.alloc(), &store, &mut shelf)?;
    assert_eq!(rt; store.free(&shelf), 3);
    Ok(())
}
