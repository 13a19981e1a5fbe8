//! `pin_space`, `pin_frozen` and `weigh`. What is pinned keeps its frames, and no frame goes or
//! comes.

use super::plays::{Play, wrong_copied, wrong_counted};
use space_api::{Space, Store};
use std::alloc::Global;
use std::test::Fail;

/// Pins a space that was filled up, and weighs.
struct PinsSpace;

impl Play for PinsSpace {
    /// How many spares it has, and how many frames are free, then.
    type Seen = (u32, u32);

    fn play<S: Store>(&self, alloc: Global, store: &S, shelf: &mut S::Shelf) -> Option<Self::Seen> {
        let mut image = store.open_image(alloc, shelf, 0).ok()?;
        let mut space = store.deploy(alloc, &mut image, shelf).ok()?;
        store.finish_deploy(&mut space);
        store.refill(shelf, &mut space);
        store.pin_space(shelf, &mut space);
        store.weigh(shelf);
        Some((space.held(), store.free(shelf)))
    }
}

/// With 0, 16 and 64 frames that are free.
const PINNED_SPACES: [(u32, PinsSpace, (u32, u32)); 3] = [
    (5, PinsSpace, (0, 0)),
    (21, PinsSpace, (16, 0)),
    (69, PinsSpace, (16, 48)),
];

const PINNED_COPIED_SPACES: [(u32, PinsSpace, (u32, u32)); 1] = [(9, PinsSpace, (0, 9))];

#[test]
fn a_pinned_space_keeps_its_frames(rt: HostRuntime) -> Result<(), Fail> {
    assert_eq!(rt; wrong_counted(rt.alloc(), &PINNED_SPACES), None);
    assert_eq!(rt; wrong_copied(rt.alloc(), &PINNED_COPIED_SPACES), None);
    Ok(())
}

/// Weighs, pins an image, and weighs.
struct PinsFrozen;

impl Play for PinsFrozen {
    /// How many frames are free before and after.
    type Seen = (u32, u32);

    fn play<S: Store>(&self, alloc: Global, store: &S, shelf: &mut S::Shelf) -> Option<Self::Seen> {
        store.weigh(shelf);
        let before = store.free(shelf);
        let mut image = store.open_image(alloc, shelf, 0).ok()?;
        store.pin_frozen(shelf, &mut image);
        store.weigh(shelf);
        Some((before, store.free(shelf)))
    }
}

const PINNED_FROZEN: [(u32, PinsFrozen, (u32, u32)); 2] = [
    (4, PinsFrozen, (4, 0)),
    (69, PinsFrozen, (69, 65)),
];

const PINNED_COPIED_FROZEN: [(u32, PinsFrozen, (u32, u32)); 1] = [(9, PinsFrozen, (9, 9))];

#[test]
fn a_pinned_image_takes_no_frame(rt: HostRuntime) -> Result<(), Fail> {
    assert_eq!(rt; wrong_counted(rt.alloc(), &PINNED_FROZEN), None);
    assert_eq!(rt; wrong_copied(rt.alloc(), &PINNED_COPIED_FROZEN), None);
    Ok(())
}
