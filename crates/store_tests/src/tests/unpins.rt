//! `unpin_space` and `unpin_frozen`. What was pinned and unpinned is as it was, and so is the
//! shelf.

ghost use Rattle.std.specs.Prelude.{◌≡◌, ◌^◌, ◌≤◌, None, length, true};
ghost use Rattle.space_api.specs.Holding.{MayPin, holding_of};
ghost use Rattle.space_api.specs.Stores.{frozen_of, spaced_of};

use super::plays::{MOST_FRAMES, WHOLE};
use super::starts::starts;
use counted_store::{CountedShelf, CountedStore};
use plain_space::{PlainShelf, PlainStore};
use space_api::{Access, Space, Store};
use std::alloc::Global;
use std::marker::Brand;
use std::sync::ledger::{Blank, Ledger};
use std::test::Fail;

/// Eight bytes of which the first was stored.
const STORED: u64 = 0x0707_0707_0707_0709;

/// Eight bytes of sevens.
const SEVENS: u64 = 0x0707_0707_0707_0707;

/// Pins a space, and unpins it.
fn unpinned_space<S: Store>(store: &S, shelf: &mut S::Shelf, space: &mut S::Space)
    requires loose { S.Space.pin space.old ≡ None }
    requires may_pin { S.Space.takes_frames ≡ true → MayPin
        (holding_of (S.Space.stake space.old) (S.Space.span space.old)
        (S.Space.pin space.old)) (S.Shelf.stocked shelf.old) }
    requires noted { S.Space.takes_frames ≡ true → (S.Shelf.stocked shelf.old).notes.images
        ≤ (S.Shelf.stocked shelf.old).notes.values }
    ensures space { spaced_of (S.Space.flat space.new) (S.Space.spares space.new)
        (S.Space.finished space.new) ≡ spaced_of (S.Space.flat space.old)
        (S.Space.spares space.old) (S.Space.finished space.old) }
    ensures holds { holding_of (S.Space.stake space.new) (S.Space.span space.new)
        (S.Space.pin space.new) ≡ holding_of (S.Space.stake space.old) (S.Space.span space.old)
        (S.Space.pin space.old) }
    ensures shelf { S.Shelf.stocked shelf.new ≡ S.Shelf.stocked shelf.old }
{
    store.pin_space(shelf, space);
    store.unpin_space(shelf, space);
}

/// Pins frozen memory, and unpins it.
fn unpinned_frozen<S: Store>(store: &S, shelf: &mut S::Shelf, frozen: &mut S::Frozen)
    requires loose { S.Frozen.pin frozen.old ≡ None }
    requires may_pin { S.Space.takes_frames ≡ true → MayPin
        (holding_of (S.Frozen.stake frozen.old) (S.Frozen.span frozen.old)
        (S.Frozen.pin frozen.old)) (S.Shelf.stocked shelf.old) }
    requires noted { S.Space.takes_frames ≡ true → (S.Shelf.stocked shelf.old).notes.images
        ≤ (S.Shelf.stocked shelf.old).notes.values }
    ensures frozen { frozen_of (S.Frozen.flat frozen.new) (S.Frozen.image frozen.new)
        ≡ frozen_of (S.Frozen.flat frozen.old) (S.Frozen.image frozen.old) }
    ensures holds { holding_of (S.Frozen.stake frozen.new) (S.Frozen.span frozen.new)
        (S.Frozen.pin frozen.new) ≡ holding_of (S.Frozen.stake frozen.old)
        (S.Frozen.span frozen.old) (S.Frozen.pin frozen.old) }
    ensures shelf { S.Shelf.stocked shelf.new ≡ S.Shelf.stocked shelf.old }
{
    store.pin_frozen(shelf, frozen);
    store.unpin_frozen(shelf, frozen);
}

/// What is seen of a space that was pinned and unpinned: how many spares it has and how many frames
/// are free; then how many frames go into it and what stands in it; and how many frames are free
/// once all of its came back.
type SpaceSeen = ((u32, u32), (u32, Result<u64, Access>), u32);

/// How many frames are free once an image was pinned and unpinned, and what is seen of a space on
/// it.
type Seen = (u32, SpaceSeen);

/// Fills a space up, stores a byte if it has the spares, and pins and unpins it.
fn seen_of_space<S: Store>(store: &S, shelf: &mut S::Shelf, mut space: S::Space) -> SpaceSeen
    requires finished { S.Space.finished space ≡ true }
    requires stake { S.Space.takes_frames ≡ true → 1 ≤ S.Space.stake space }
    requires shelf { S.Space.takes_frames ≡ true → 2 ≤ (S.Shelf.stocked shelf.old).stake }
    requires noted { S.Space.takes_frames ≡ true → (S.Shelf.stocked shelf.old).notes.images
        ≤ (S.Shelf.stocked shelf.old).notes.values }
{
    store.refill(shelf, &mut space);
    let _ = space.store(0x1_0000, 1, 9);
    unpinned_space(store, shelf, &mut space);
    let held = space.held();
    let free = store.free(shelf);
    let moved = store.refill(shelf, &mut space);
    let stands = space.load(0x1_0000, 8);
    store.give_back(shelf, store.release_space(space));
    ((held, free), (moved, stands), store.free(shelf))
}

/// Pins and unpins an image, and a space on it.
fn seen_of_image<S: Store>(
    alloc: Global,
    store: &S,
    shelf: &mut S::Shelf,
    mut image: S::Frozen,
) -> Option<Seen>
    requires loose { S.Frozen.pin image ≡ None }
    requires stake { S.Space.takes_frames ≡ true → 1 ≤ S.Frozen.stake image }
    requires shelf { S.Space.takes_frames ≡ true →
        2 ^ 21 ≤ (S.Shelf.stocked shelf.old).stake }
    requires noted { S.Space.takes_frames ≡ true → (S.Shelf.stocked shelf.old).notes.images
        ≤ (S.Shelf.stocked shelf.old).notes.values }
{
    unpinned_frozen(store, shelf, &mut image);
    let opened = store.free(shelf);
    let mut space = store.deploy(alloc, &mut image, shelf).ok()?;
    store.finish_deploy(&mut space);
    Some((opened, seen_of_space(store, shelf, space)))
}

/// Opens an image, and pins and unpins it, and a space on it. None is for want of memory, or where
/// a call was refused.
fn after_pins<S: Store>(alloc: Global, store: &S, shelf: &mut S::Shelf) -> Option<Seen>
    requires starts { length (S.starts store.now) ≡ 3 }
    requires stake { S.Space.takes_frames ≡ true →
        2 ^ 22 ≤ (S.Shelf.stocked shelf.old).stake }
    requires noted { S.Space.takes_frames ≡ true → (S.Shelf.stocked shelf.old).notes.images
        ≤ (S.Shelf.stocked shelf.old).notes.values }
{
    let image = store.open_image(alloc, shelf, 0).ok()?;
    seen_of_image(alloc, store, shelf, image)
}

/// What is seen over copied pages, where so many frames are said to be free.
fn copied(alloc: Global, frames: u32) -> Option<Seen> {
    let starts = starts(alloc)?;
    let store = PlainStore::open(&starts).ok()?;
    let mut shelf = PlainShelf::new(frames.min(MOST_FRAMES));
    after_pins(alloc, &store, &mut shelf)
}

/// What is seen over so many frames, over a ledger of its own.
fn counted_by<L: Ledger + Send + Sync>(alloc: Global, frames: u32, blank: Blank) -> Option<Seen>
    requires name { blank.name ≡ L.name }
    requires parts { blank.parts ≡ L.parts }
    requires whole { blank.parts ≡ 2 ^ 22 }
{
    let starts = starts(alloc)?;
    let store = CountedStore::<L>::open(&starts);
    let mut shelf = CountedShelf::<L>::new(frames.min(MOST_FRAMES), WHOLE, blank);
    after_pins(alloc, &store, &mut shelf)
}

/// What is seen over so many frames.
fn counted(alloc: Global, frames: u32) -> Option<Seen> {
    counted_by::<Brand>(alloc, frames, Blank::new(WHOLE))
}

/// The image takes 4 frames, and the space 1. With 0, 16, 18 and 64 frames that are free then, of
/// which a store takes 3.
#[test]
fn what_was_unpinned_is_as_before(rt: HostRuntime) -> Result<(), Fail> {
    let alloc = rt.alloc();
    assert_eq!(rt; counted(alloc, 5), Some((1, ((0, 0), (0, Ok(SEVENS)), 1))));
    assert_eq!(rt;
        counted(alloc, 21),
        Some((17, ((13, 0), (0, Ok(STORED)), 17)))
    );
    assert_eq!(rt;
        counted(alloc, 23),
        Some((19, ((13, 2), (2, Ok(STORED)), 19)))
    );
    assert_eq!(rt;
        counted(alloc, 69),
        Some((65, ((13, 48), (3, Ok(STORED)), 65)))
    );
    Ok(())
}

#[test]
fn what_takes_no_frames_is_as_before(rt: HostRuntime) -> Result<(), Fail> {
    assert_eq!(rt;
        copied(rt.alloc(), 9),
        Some((9, ((0, 9), (0, Ok(STORED)), 9)))
    );
    Ok(())
}
