//! `capture` and `release_frozen`. A capture takes a spare.

use super::plays::{Play, wrong_copied, wrong_counted};
use space_api::{Access, Captured, Space, Store};
use std::alloc::Global;
use std::test::Fail;

/// Eight bytes of which the first was stored.
const STORED: u64 = 0x0707_0707_0707_0709;

/// Eight bytes of sevens.
const SEVENS: u64 = 0x0707_0707_0707_0707;

/// Captures a space that was filled up, and stored a byte if it had the spares.
struct Captures;

impl Play for Captures {
    /// How many pages were written, or none where a spare was wanted; how many spares the space
    /// has, and what stands in it, afterwards.
    type Seen = (Option<u32>, u32, Result<u64, Access>);

    fn play<S: Store>(&self, alloc: Global, store: &S, shelf: &mut S::Shelf) -> Option<Self::Seen> {
        let mut image = store.open_image(alloc, shelf, 0).ok()?;
        let mut space = store.deploy(alloc, &mut image, shelf).ok()?;
        store.finish_deploy(&mut space);
        store.refill(shelf, &mut space);
        let _ = space.store(0x1_0000, 1, 9);
        match store.capture(alloc, space) {
            Captured::Done {
                frozen: _,
                space: mut on,
                pages,
            } => Some((Some(pages), on.held(), on.load(0x1_0000, 8))),
            Captured::NeedFrames(mut on) => Some((None, on.held(), on.load(0x1_0000, 8))),
            Captured::Memory(_) => None,
        }
    }
}

/// With 0, 1, 3, 4 and 16 spares, of which a store takes 3.
const CAPTURED: [(u32, Captures, (Option<u32>, u32, Result<u64, Access>)); 5] = [
    (5, Captures, (None, 0, Ok(SEVENS))),
    (6, Captures, (Some(0), 0, Ok(SEVENS))),
    (8, Captures, (None, 0, Ok(STORED))),
    (9, Captures, (Some(1), 0, Ok(STORED))),
    (21, Captures, (Some(1), 12, Ok(STORED))),
];

const CAPTURED_COPIED: [(u32, Captures, (Option<u32>, u32, Result<u64, Access>)); 1] = [(
    0,
    Captures,
    (Some(1), 0, Ok(STORED)),
)];

#[test]
fn a_capture_takes_a_spare(rt: HostRuntime) -> Result<(), Fail> {
    assert_eq!(rt; wrong_counted(rt.alloc(), &CAPTURED), None);
    assert_eq!(rt; wrong_copied(rt.alloc(), &CAPTURED_COPIED), None);
    Ok(())
}

/// Captures a space that was filled up, and releases what was captured, the image, and the space
/// that went on.
struct ReleasesFrozen;

impl Play for ReleasesFrozen {
    /// How many frames each of the first two had, and how many are free once all came back.
    type Seen = (u32, u32, u32);

    fn play<S: Store>(&self, alloc: Global, store: &S, shelf: &mut S::Shelf) -> Option<Self::Seen> {
        let mut image = store.open_image(alloc, shelf, 0).ok()?;
        let mut space = store.deploy(alloc, &mut image, shelf).ok()?;
        store.finish_deploy(&mut space);
        store.refill(shelf, &mut space);
        match store.capture(alloc, space) {
            Captured::Done {
                frozen,
                space: on,
                pages: _,
            } => {
                let of_frozen = store.release_frozen(frozen);
                let of_image = store.release_frozen(image);
                let seen = (store.count(&of_frozen), store.count(&of_image));
                store.give_back(shelf, of_frozen);
                store.give_back(shelf, of_image);
                store.give_back(shelf, store.release_space(on));
                Some((seen.0, seen.1, store.free(shelf)))
            }
            Captured::NeedFrames(_) => None,
            Captured::Memory(_) => None,
        }
    }
}

/// All come back with the space but the 4 of the image, which stay its own.
const RELEASED: [(u32, ReleasesFrozen, (u32, u32, u32)); 2] = [
    (6, ReleasesFrozen, (0, 0, 2)),
    (38, ReleasesFrozen, (0, 0, 34)),
];

const RELEASED_COPIED: [(u32, ReleasesFrozen, (u32, u32, u32)); 1] = [(
    9,
    ReleasesFrozen,
    (0, 0, 9),
)];

#[test]
fn frames_of_frozen_memory_stay_where_they_count(rt: HostRuntime) -> Result<(), Fail> {
    assert_eq!(rt; wrong_counted(rt.alloc(), &RELEASED), None);
    assert_eq!(rt; wrong_copied(rt.alloc(), &RELEASED_COPIED), None);
    Ok(())
}
