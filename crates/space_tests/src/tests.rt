//! What writes need was worked out by hand: a frame for each new page, and for each new span of
//! 512 and of 262,144 pages in which one stands.
ghost use Rattle.std.specs.Prelude.{◌≡◌, ◌<◌};

mod guest;
mod many;
mod runs;

use counted_space::CountedSpace;
use guest::guest_of;
use space_api::{Access, Space};
use std::alloc::Global;
use std::test::Fail;

/// What is stored.
const VALUE: u64 = 0x0102_0304_0506_0708;

/// Where so many bytes are written, and the frames that it needs where nothing was written.
/// - 1, 2 and 4 bytes of page 512, and 8 bytes across its start
/// - 8 bytes across 2^30
/// - 32,768 bytes on nine pages across 2^30
/// - and no bytes
const WRITES: [(u64, usize, u32); 7] = [
    (0x20_0000, 1, 3),
    (0x20_0000, 2, 3),
    (0x20_0ffc, 4, 3),
    (0x1f_fffc, 8, 5),
    (0x3fff_fffc, 8, 6),
    (0x3fff_c001, 32_768, 13),
    (0x1f_f000, 0, 0),
];

/// Stores 1, 2, 4 or 8 bytes, or writes as many.
fn write(space: &mut CountedSpace, at: u64, bytes: &[u8]) -> Option<Result<(), Access>> {
    let done = match bytes.len() {
        1 => space.store(at, 1, VALUE),
        2 => space.store(at, 2, VALUE),
        4 => space.store(at, 4, VALUE),
        8 => space.store(at, 8, VALUE),
        n => {
            if n > 32_768 {
                return None;
            }
            space.write_from(at, bytes)
        }
    };
    Some(done)
}

/// Whether a write is refused with one spare less than it needs, and then keeps its spares; is done
/// with as many, and spends them; and needs none when it is done again.
fn needs(space: &mut CountedSpace, at: u64, bytes: &[u8], need: u32) -> Option<bool> {
    if need > 0 {
        space.refill(need - 1);
        let refused = write(space, at, bytes)? == Err(Access::NeedFrames);
        if !refused || space.held() != need - 1 {
            return Some(false);
        }
        space.refill(1);
    }
    let done = write(space, at, bytes)?.is_ok() && space.held() == 0;
    Some(done && write(space, at, bytes)?.is_ok())
}

/// Whether each write of the table needs what it says.
fn all_need(alloc: Global) -> Option<bool> {
    let bytes = vec![in alloc; 7; 32_768].ok()?;
    for (at, size, need) in WRITES {
        let mut guest = guest_of(alloc)?;
        if !needs(&mut guest.space, at, bytes.get(..size)?, need)? {
            return Some(false);
        }
    }
    Some(true)
}

#[test]
fn writes_need_new_pages_and_spans(rt: HostRuntime) -> Result<(), Fail> {
    assert_eq!(rt; all_need(rt.alloc()), Some(true));
    Ok(())
}

/// Whether a fault goes before a want of frames, and each page more needs what it adds: of the same
/// spans, of a new small one, and of two new spans.
fn adds_up(space: &mut CountedSpace) -> bool {
    let faults = space.store(0x20_1ffc, 8, VALUE)
        == Err(Access::Fault {
            cause: 15,
            addr: 0x20_2000,
        });
    space.refill(9);
    let first = space.store(0x3f_e000, 8, VALUE).is_ok() && space.held() == 6;
    let page = space.store(0x3f_f000, 1, VALUE).is_ok() && space.held() == 5;
    let small = space.store(0x1f_f000, 1, VALUE).is_ok() && space.held() == 3;
    let large = space.store(0x4000_0000, 1, VALUE).is_ok() && space.held() == 0;
    faults && first && page && small && large
}

#[test]
fn pages_more_add_up(rt: HostRuntime) -> Result<(), Fail> {
    let mut guest = guest_of(rt.alloc()).ok_or("no program")?;
    assert!(rt; adds_up(&mut guest.space));
    guest.space.refill(40);
    assert_eq!(rt; guest.space.held(), 16);
    Ok(())
}
