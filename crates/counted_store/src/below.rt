//! The store of copied pages below.

ghost use Rattle.std.specs.Prelude.{◌≡◌, true, false, IfOk};
ghost use Rattle.space_api.specs.Flat.{flat_of};
ghost use Rattle.space_api.specs.Stores.{frozen};
ghost use Rattle.plain_space.specs.PlainFrozen as memory;
ghost use Rattle.plain_space.specs.PlainSpace as plain;
ghost use Rattle.counted_store.specs.Copied.{IsCopied};

use plain_space::{PlainFrozen, PlainShelf, PlainSpace, PlainStore};
use space_api::{Captured, Memory, Start, Store};
use std::alloc::Global;
use std::slice;

/// The frozen memory of a start.
pub fn open_plain(alloc: Global, start: &Start) -> Result<PlainFrozen, Memory>
    ensures { IfOk result (λ image. memory.flat image ≡ flat_of start.now) }
{
    let store = PlainStore::open(slice::from_ref(start))?;
    let mut shelf = PlainShelf::new(0);
    match store.open_image(alloc, &mut shelf, 0) {
        Ok(image) => Ok(image),
        Err(_) => Err(Memory),
    }
}

/// A space with the bytes of frozen memory, which is to be finished.
pub fn deploy_plain(
    starts: &[Start],
    alloc: Global,
    below: &mut PlainFrozen,
) -> Result<PlainSpace, Memory>
    ensures flat { IfOk result (λ space. plain.flat space ≡ frozen (memory.flat below.old)) }
    ensures begun { IfOk result (λ space. plain.finished space ≡ false) }
    ensures kept { memory.flat below.new ≡ memory.flat below.old }
{
    let store = PlainStore::open(starts)?;
    let mut shelf = PlainShelf::new(0);
    match store.deploy(alloc, below, &mut shelf) {
        Ok(space) => Ok(space),
        Err(_) => Err(Memory),
    }
}

/// Finishes the deploy of a space.
pub fn finish_plain(starts: &[Start], space: &mut PlainSpace)
    requires { plain.finished space.old ≡ false }
    ensures flat { plain.flat space.new ≡ plain.flat space.old }
    ensures finished { plain.finished space.new ≡ true }
{
    let Ok(store) = PlainStore::open(starts) else {
        unreachable!()
    };
    store.finish_deploy(space);
}

/// A space whose memory was frozen, or one that is as it was where memory ran out.
pub fn capture_plain(
    starts: &[Start],
    alloc: Global,
    space: PlainSpace,
) -> Captured<PlainFrozen, PlainSpace>
    requires { plain.finished space ≡ true }
    ensures { IsCopied space result }
{
    let Ok(store) = PlainStore::open(starts) else {
        unreachable!()
    };
    store.capture(alloc, space)
}
