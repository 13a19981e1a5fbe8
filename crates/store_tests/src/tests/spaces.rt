//! `deploy` and `finish_deploy`. A deploy takes a frame.

use super::plays::{Play, wrong_copied, wrong_counted};
use space_api::{Access, Refused, Space, Store};
use std::alloc::Global;
use std::test::Fail;

/// Eight bytes of sevens.
const SEVENS: u64 = 0x0707_0707_0707_0707;

/// Deploys a space on the image of one page.
struct Deploys;

impl Play for Deploys {
    /// How many spares it has, or why it was refused, and how many frames are free then.
    type Seen = (Result<u32, Refused>, u32);

    fn play<S: Store>(&self, alloc: Global, store: &S, shelf: &mut S::Shelf) -> Option<Self::Seen> {
        let mut image = store.open_image(alloc, shelf, 0).ok()?;
        let seen = match store.deploy(alloc, &mut image, shelf) {
            Ok(space) => Ok(space.held()),
            Err(refused) => Err(refused),
        };
        Some((seen, store.free(shelf)))
    }
}

/// The image takes 4 frames of these.
const DEPLOYED: [(u32, Deploys, (Result<u32, Refused>, u32)); 3] = [
    (4, Deploys, (Err(Refused::Frames), 0)),
    (5, Deploys, (Ok(0), 0)),
    (69, Deploys, (Ok(0), 64)),
];

const DEPLOYED_COPIED: [(u32, Deploys, (Result<u32, Refused>, u32)); 2] = [
    (0, Deploys, (Ok(0), 0)),
    (5, Deploys, (Ok(0), 5)),
];

#[test]
fn a_deploy_takes_a_frame(rt: HostRuntime) -> Result<(), Fail> {
    assert_eq!(rt; wrong_counted(rt.alloc(), &DEPLOYED), None);
    assert_eq!(rt; wrong_copied(rt.alloc(), &DEPLOYED_COPIED), None);
    Ok(())
}

/// Finishes a deploy on the image of the start, and reads 8 bytes at the address.
struct Finishes {
    start: u16,
    at: u64,
}

impl Play for Finishes {
    /// How many spares there are before and after, and what is read.
    type Seen = (u32, u32, Result<u64, Access>);

    fn play<S: Store>(&self, alloc: Global, store: &S, shelf: &mut S::Shelf) -> Option<Self::Seen> {
        if self.start >= 3 {
            return None;
        }
        let mut image = store.open_image(alloc, shelf, self.start).ok()?;
        let mut space = store.deploy(alloc, &mut image, shelf).ok()?;
        let before = space.held();
        store.finish_deploy(&mut space);
        Some((before, space.held(), space.load(self.at, 8)))
    }
}

/// The first and the last bytes of 1 page and of 65, what stands behind them, and a fault.
const FINISHED: [(u32, Finishes, (u32, u32, Result<u64, Access>)); 9] = [
    (
        5,
        Finishes {
            start: 0,
            at: 0x1_0000,
        },
        (0, 0, Ok(SEVENS)),
    ),
    (
        5,
        Finishes {
            start: 0,
            at: 0x1_0ffc,
        },
        (0, 0, Ok(0x0707_0707)),
    ),
    (
        5,
        Finishes {
            start: 0,
            at: 0x1_1000,
        },
        (0, 0, Ok(0)),
    ),
    (
        5,
        Finishes {
            start: 0,
            at: 0x1_2ffc,
        },
        (0, 0, FAULT),
    ),
    (
        70,
        Finishes {
            start: 1,
            at: 0x1c_0000,
        },
        (0, 0, Ok(SEVENS)),
    ),
    (
        70,
        Finishes {
            start: 1,
            at: 0x1f_fffc,
        },
        (0, 0, Ok(SEVENS)),
    ),
    (
        70,
        Finishes {
            start: 1,
            at: 0x20_0ff8,
        },
        (0, 0, Ok(SEVENS)),
    ),
    (
        70,
        Finishes {
            start: 1,
            at: 0x20_1000,
        },
        (0, 0, Ok(0)),
    ),
    (
        2,
        Finishes {
            start: 2,
            at: 0x1_0000,
        },
        (0, 0, Ok(0)),
    ),
];

/// A load page fault at the end of the start of one page.
const FAULT: Result<u64, Access> = Err(Access::Fault {
    cause: 13,
    addr: 0x1_3000,
});

#[test]
fn a_finished_space_has_the_bytes_of_its_start(rt: HostRuntime) -> Result<(), Fail> {
    assert_eq!(rt; wrong_counted(rt.alloc(), &FINISHED), None);
    assert_eq!(rt; wrong_copied(rt.alloc(), &FINISHED), None);
    Ok(())
}
