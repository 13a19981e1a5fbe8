//! `open_image` and `free`. The start of one page takes 4 frames, that of 65 pages on both sides of
//! page 512 takes 69, and that without file bytes 1.

use super::plays::{Play, wrong_copied, wrong_counted};
use space_api::{Refused, Stock, Store};
use std::alloc::Global;
use std::test::Fail;

/// A refusal for want of frames.
const FEW: Option<Refused> = Some(Refused::Frames);

/// Opens two images.
struct Opens {
    first: u16,
    second: u16,
}

impl Play for Opens {
    /// Why each was refused, if so, and how many frames are free then.
    type Seen = (Option<Refused>, Option<Refused>, u32);

    fn play<S: Store>(&self, alloc: Global, store: &S, shelf: &mut S::Shelf) -> Option<Self::Seen> {
        if self.first >= 3 || self.second >= 3 {
            return None;
        }
        let first = store.open_image(alloc, shelf, self.first).err();
        let second = store.open_image(alloc, shelf, self.second).err();
        Some((first, second, store.free(shelf)))
    }
}

/// With as many frames as both images take, and one less, and with as many as the first takes, and
/// one less: then the second is still opened where it takes no more.
const OPENED: [(u32, Opens, (Option<Refused>, Option<Refused>, u32)); 9] = [
    (
        73,
        Opens {
            first: 1,
            second: 0,
        },
        (None, None, 0),
    ),
    (
        72,
        Opens {
            first: 1,
            second: 0,
        },
        (None, FEW, 3),
    ),
    (
        69,
        Opens {
            first: 1,
            second: 0,
        },
        (None, FEW, 0),
    ),
    (
        68,
        Opens {
            first: 1,
            second: 0,
        },
        (FEW, None, 64),
    ),
    (
        4,
        Opens {
            first: 1,
            second: 0,
        },
        (FEW, None, 0),
    ),
    (
        3,
        Opens {
            first: 1,
            second: 0,
        },
        (FEW, FEW, 3),
    ),
    (
        5,
        Opens {
            first: 2,
            second: 0,
        },
        (None, None, 0),
    ),
    (
        1,
        Opens {
            first: 2,
            second: 2,
        },
        (None, FEW, 0),
    ),
    (
        0,
        Opens {
            first: 2,
            second: 0,
        },
        (FEW, FEW, 0),
    ),
];

const OPENED_COPIED: [(u32, Opens, (Option<Refused>, Option<Refused>, u32)); 2] = [
    (
        0,
        Opens {
            first: 1,
            second: 0,
        },
        (None, None, 0),
    ),
    (
        7,
        Opens {
            first: 2,
            second: 1,
        },
        (None, None, 7),
    ),
];

#[test]
fn an_image_takes_its_frames(rt: HostRuntime) -> Result<(), Fail> {
    assert_eq!(rt; wrong_counted(rt.alloc(), &OPENED), None);
    assert_eq!(rt; wrong_copied(rt.alloc(), &OPENED_COPIED), None);
    Ok(())
}

/// Counts the free frames.
struct Frees;

impl Play for Frees {
    /// What the store and the shelf say.
    type Seen = (u32, u32);

    fn play<S: Store>(
        &self,
        _alloc: Global,
        store: &S,
        shelf: &mut S::Shelf,
    ) -> Option<Self::Seen> {
        Some((store.free(shelf), shelf.free()))
    }
}

const FREES: [(u32, Frees, (u32, u32)); 3] = [
    (0, Frees, (0, 0)),
    (1, Frees, (1, 1)),
    (131_072, Frees, (131_072, 131_072)),
];

#[test]
fn as_many_are_free_as_are_put_there(rt: HostRuntime) -> Result<(), Fail> {
    assert_eq!(rt; wrong_counted(rt.alloc(), &FREES), None);
    assert_eq!(rt; wrong_copied(rt.alloc(), &FREES), None);
    Ok(())
}
