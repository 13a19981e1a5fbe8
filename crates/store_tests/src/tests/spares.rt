//! `refill`, `strip`, `release_space`, `give_back` and `count`. An image and a
//! space take 5 frames before anything else.

use super::plays::{Play, wrong_copied, wrong_counted};
use space_api::{Space, Store};
use std::alloc::Global;
use std::test::Fail;

/// Fills a space up twice.
struct Refills;

impl Play for Refills {
    /// How many frames went into the space, how many spares it has and how many frames are free
    /// then, and how many went into it the second time.
    type Seen = (u32, u32, u32, u32);

    fn play<S: Store>(&self, alloc: Global, store: &S, shelf: &mut S::Shelf) -> Option<Self::Seen> {
        let mut image = store.open_image(alloc, shelf, 0).ok()?;
        let mut space = store.deploy(alloc, &mut image, shelf).ok()?;
        store.finish_deploy(&mut space);
        let moved = store.refill(shelf, &mut space);
        let held = space.held();
        let free = store.free(shelf);
        Some((moved, held, free, store.refill(shelf, &mut space)))
    }
}

/// With 0, 1, 15, 16, 17 and 33 frames that are free.
const REFILLED: [(u32, Refills, (u32, u32, u32, u32)); 6] = [
    (5, Refills, (0, 0, 0, 0)),
    (6, Refills, (1, 1, 0, 0)),
    (20, Refills, (15, 15, 0, 0)),
    (21, Refills, (16, 16, 0, 0)),
    (22, Refills, (16, 16, 1, 0)),
    (38, Refills, (16, 16, 17, 0)),
];

const REFILLED_COPIED: [(u32, Refills, (u32, u32, u32, u32)); 2] = [
    (0, Refills, (0, 0, 0, 0)),
    (17, Refills, (0, 0, 17, 0)),
];

#[test]
fn a_refill_is_up_to_sixteen(rt: HostRuntime) -> Result<(), Fail> {
    assert_eq!(rt; wrong_counted(rt.alloc(), &REFILLED), None);
    assert_eq!(rt; wrong_copied(rt.alloc(), &REFILLED_COPIED), None);
    Ok(())
}

/// Fills a space up, has it spend three spares, and fills it up again.
struct RefillsMore;

impl Play for RefillsMore {
    /// How many frames went into it the second time, how many spares it has and how many frames
    /// are free then.
    type Seen = (u32, u32, u32);

    fn play<S: Store>(&self, alloc: Global, store: &S, shelf: &mut S::Shelf) -> Option<Self::Seen> {
        let mut image = store.open_image(alloc, shelf, 0).ok()?;
        let mut space = store.deploy(alloc, &mut image, shelf).ok()?;
        store.finish_deploy(&mut space);
        store.refill(shelf, &mut space);
        let _ = space.store(0x1_0000, 1, 9);
        let moved = store.refill(shelf, &mut space);
        Some((moved, space.held(), store.free(shelf)))
    }
}

/// With 0, 2, 3 and 4 frames more than 16.
const MORE: [(u32, RefillsMore, (u32, u32, u32)); 4] = [
    (21, RefillsMore, (0, 13, 0)),
    (23, RefillsMore, (2, 15, 0)),
    (24, RefillsMore, (3, 16, 0)),
    (25, RefillsMore, (3, 16, 1)),
];

#[test]
fn what_was_spent_is_filled_up(rt: HostRuntime) -> Result<(), Fail> {
    assert_eq!(rt; wrong_counted(rt.alloc(), &MORE), None);
    Ok(())
}

/// Takes the spares of a space, which spent three if it has as many, and gives them back.
struct Strips;

impl Play for Strips {
    /// How many they are, how many the space has then, and how many frames are free before and
    /// after they came back.
    type Seen = (u32, u32, u32, u32);

    fn play<S: Store>(&self, alloc: Global, store: &S, shelf: &mut S::Shelf) -> Option<Self::Seen> {
        let mut image = store.open_image(alloc, shelf, 0).ok()?;
        let mut space = store.deploy(alloc, &mut image, shelf).ok()?;
        store.finish_deploy(&mut space);
        store.refill(shelf, &mut space);
        let _ = space.store(0x1_0000, 1, 9);
        let spares = store.strip(&mut space);
        let count = store.count(&spares);
        let free = store.free(shelf);
        store.give_back(shelf, spares);
        Some((count, space.held(), free, store.free(shelf)))
    }
}

/// With 0, 2, 3, 4, 16 and 17 frames that are free.
const STRIPPED: [(u32, Strips, (u32, u32, u32, u32)); 6] = [
    (5, Strips, (0, 0, 0, 0)),
    (7, Strips, (2, 0, 0, 2)),
    (8, Strips, (0, 0, 0, 0)),
    (9, Strips, (1, 0, 0, 1)),
    (21, Strips, (13, 0, 0, 13)),
    (22, Strips, (13, 0, 1, 14)),
];

const STRIPPED_COPIED: [(u32, Strips, (u32, u32, u32, u32)); 1] = [(9, Strips, (0, 0, 9, 9))];

#[test]
fn spares_that_are_taken_come_back(rt: HostRuntime) -> Result<(), Fail> {
    assert_eq!(rt; wrong_counted(rt.alloc(), &STRIPPED), None);
    assert_eq!(rt; wrong_copied(rt.alloc(), &STRIPPED_COPIED), None);
    Ok(())
}

/// Releases a space, which spent three spares if it has as many, and gives back what it had.
struct Releases;

impl Play for Releases {
    /// How many frames they are, and how many are free before and after they came back.
    type Seen = (u32, u32, u32);

    fn play<S: Store>(&self, alloc: Global, store: &S, shelf: &mut S::Shelf) -> Option<Self::Seen> {
        let mut image = store.open_image(alloc, shelf, 0).ok()?;
        let mut space = store.deploy(alloc, &mut image, shelf).ok()?;
        store.finish_deploy(&mut space);
        store.refill(shelf, &mut space);
        let _ = space.store(0x1_0000, 1, 9);
        let spares = store.release_space(space);
        let count = store.count(&spares);
        let free = store.free(shelf);
        store.give_back(shelf, spares);
        Some((count, free, store.free(shelf)))
    }
}

/// All come back but for the 4 of the image: that of the deploy, and what was spent too.
const RELEASED: [(u32, Releases, (u32, u32, u32)); 4] = [
    (5, Releases, (1, 0, 1)),
    (6, Releases, (2, 0, 2)),
    (21, Releases, (17, 0, 17)),
    (38, Releases, (17, 17, 34)),
];

const RELEASED_COPIED: [(u32, Releases, (u32, u32, u32)); 1] = [(9, Releases, (0, 9, 9))];

#[test]
fn all_frames_of_a_space_come_back(rt: HostRuntime) -> Result<(), Fail> {
    assert_eq!(rt; wrong_counted(rt.alloc(), &RELEASED), None);
    assert_eq!(rt; wrong_copied(rt.alloc(), &RELEASED_COPIED), None);
    Ok(())
}
