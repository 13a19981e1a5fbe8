//! The calls of a space: bytes stand the lowest first, pages have 4,096 bytes, and a page fault is
//! cause 12, 13 or 15.

ghost use Rattle.std.specs.Prelude.{◌≡◌, true};

use super::starts::starts;
use super::stores::deployed;
use plain_space::{PlainShelf, PlainStore};
use space_api::{Access, Space};
use std::alloc::Global;
use std::process::Abort;
use std::test::Fail;

/// A fault of this cause at an address.
fn fault<T>(cause: u64, addr: u64) -> Result<T, Access> {
    Err(Access::Fault { cause, addr })
}

/// Loads, where nothing was stored yet.
fn loads<R: Abort, S: Space>(rt: &R, space: &mut S) -> Result<(), Fail>
    requires { S.finished space.old ≡ true }
    ensures { S.finished space.new ≡ true }
{
    assert_eq!(rt; space.load(0x1_0000, 1), Ok(0x07));
    assert_eq!(rt; space.load(0x1_0001, 2), Ok(0x0707));
    assert_eq!(rt; space.load(0x1_0003, 4), Ok(0x0707_0707));
    assert_eq!(rt; space.load(0x1_0ff8, 8), Ok(0x0707_0707_0707_0707));
    assert_eq!(rt; space.load(0x1_0ffd, 8), Ok(0x0007_0707));
    assert_eq!(rt; space.load(0x1_3800, 8), Ok(0));
    assert_eq!(rt; space.load(0x1_e000, 1), fault(13, 0x1_e000));
    assert_eq!(rt; space.load(u64::MAX - 3, 8), fault(13, 0));
    Ok(())
}

/// Stores in a page, over its end, on a page that had no bytes, and where they aren't allowed.
fn stores<R: Abort, S: Space>(rt: &R, space: &mut S) -> Result<(), Fail>
    requires { S.finished space.old ≡ true }
    ensures { S.finished space.new ≡ true }
{
    assert_eq!(rt; space.store(0x1_2100, 8, 0x8877_6655_4433_2211), Ok(()));
    assert_eq!(rt; space.load(0x1_2101, 2), Ok(0x3322));
    assert_eq!(rt; space.load(0x1_2103, 4), Ok(0x7766_5544));
    assert_eq!(rt; space.store(0x1_2ffd, 8, 0x8877_6655_4433_2211), Ok(()));
    assert_eq!(rt; space.load(0x1_2ffd, 8), Ok(0x8877_6655_4433_2211));
    assert_eq!(rt; space.load(0x1_3000, 4), Ok(0x7766_5544));
    assert_eq!(rt; space.store(0x1_3ffc, 8, u64::MAX), fault(15, 0x1_4000));
    assert_eq!(rt; space.load(0x1_3ffc, 4), Ok(0));
    Ok(())
}

/// Fetches of bytes, of zeros, and where they aren't allowed.
fn fetches<R: Abort, S: Space>(rt: &R, space: &mut S) -> Result<(), Fail>
    requires { S.finished space.old ≡ true }
    ensures { S.finished space.new ≡ true }
{
    assert_eq!(rt; space.fetch(0x1_0ffc), Ok(0x0707_0707));
    assert_eq!(rt; space.fetch(0x1_1000), Ok(0));
    assert_eq!(rt; space.fetch(0x1_2000), fault(12, 0x1_2000));
    Ok(())
}

/// Copies in and out over several pages.
fn copies<R: Abort, S: Space>(rt: &R, alloc: Global, space: &mut S) -> Result<(), Fail>
    requires { S.finished space.old ≡ true }
{
    let nines = vec![in alloc; 9; 4609]?;
    assert_eq!(rt; space.write_from(0x1_2e00, &nines), fault(15, 0x1_4000));
    assert_eq!(rt; space.write_from(0x1_2e00, &nines[..4608]), Ok(()));
    let mut buf = vec![in alloc; 1; 4610]?;
    assert_eq!(rt; space.read_into(0x1_2dff, &mut buf), Ok(()));
    assert_eq!(rt; (buf[0], buf[1], buf[4608], buf[4609]), (7, 9, 9, 0));
    assert_eq!(rt; space.held(), 0);
    Ok(())
}

#[test]
fn a_space_does_what_its_trait_says(rt: HostRuntime) -> Result<(), Fail> {
    let starts = starts(rt.alloc())?;
    let store = PlainStore::open(&starts)?;
    let mut shelf = PlainShelf::new(0);
    let mut space = deployed(rt.alloc(), &store, &mut shelf)?;
    loads(&rt, &mut space)?;
    stores(&rt, &mut space)?;
    fetches(&rt, &mut space)?;
    copies(&rt, rt.alloc(), &mut space)?;
    Ok(())
}
