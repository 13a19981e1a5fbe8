//! Each call once, and what a list loses.

ghost use Rattle.std.specs.Prelude.{◌≡◌};

use super::*;
use machine_model::Memory;
use std::test::Fail;

#[test]
fn idle_contexts_in_their_order(rt: HostRuntime) -> Result<(), Fail> {
    let mut list = IdleList::open(rt.alloc(), 2)?;
    assert_eq!(rt; list.last(), None);
    assert_eq!(rt; list.park(7, 1, 70)?, None);
    assert_eq!(rt; list.is_full(), false);
    assert_eq!(rt; list.park(8, 1, 80)?, None);
    assert_eq!(rt; list.is_full(), true);
    assert_eq!(rt;
        (list.find(1), list.find(2), list.last()),
        (Some(8), None, Some(7))
    );
    assert_eq!(rt; list.park(9, 2, 90)?, Some((7, 70)));
    assert_eq!(rt; (list.remove(7), list.remove(8)), (None, Some(80)));
    list.is_sound();
    assert_eq!(rt; (list.find(1), list.find(2)), (None, Some(9)));
    Ok(())
}

#[test]
fn layers_in_their_order(rt: HostRuntime) -> Result<(), Fail> {
    let mut list = LayerList::open(rt.alloc(), 2)?;
    assert_eq!(rt; list.keep(4, 40)?, None);
    assert_eq!(rt; list.keep(5, 50)?, None);
    assert_eq!(rt; (list.is_full(), list.last()), (true, Some(4)));
    assert_eq!(rt;
        (list.touch(4), list.touch(6), list.last()),
        (Some(40), None, Some(5))
    );
    assert_eq!(rt; (list.find(5), list.last()), (Some(50), Some(5)));
    assert_eq!(rt; list.keep(6, 60)?, Some((5, 50)));
    list.is_sound();
    assert_eq!(rt; (list.remove(5), list.remove(4)), (None, Some(40)));
    assert_eq!(rt; list.is_full(), false);
    Ok(())
}

#[test]
fn a_list_without_room_is_full_and_empty(rt: HostRuntime) -> Result<(), Fail> {
    let idle = IdleList::open(rt.alloc(), 0)?;
    let layers = LayerList::open(rt.alloc(), 0)?;
    assert_eq!(rt;
        (idle.is_full(), idle.last(), idle.find(0)),
        (true, None, None)
    );
    assert_eq!(rt;
        (layers.is_full(), layers.last(), layers.find(0)),
        (true, None, None)
    );
    Ok(())
}

/// Parks a context in a list with room for 256, where it isn't yet. Answers what was lost.
#[tactic(auto, using(crate::proofs::Absent::still_absent))]
fn parked(list: &mut IdleList, id: u32) -> Result<Option<(u32, usize)>, Memory>
    requires room { list.old.room ≡ 256 }
    ensures room { list.new.room ≡ 256 }
{
    match list.remove(id) {
        Some(slot) => Ok(Some((id, slot))),
        None => list.park(id, 3, id as usize),
    }
}

/// Keeps a layer in a list with room for 256, where it isn't yet. Answers what was lost.
fn kept(list: &mut LayerList, k: u16) -> Result<Option<(u16, usize)>, Memory>
    requires room { list.old.room ≡ 256 }
    ensures room { list.new.room ≡ 256 }
{
    match list.find(k) {
        Some(slot) => Ok(Some((k, slot))),
        None => list.keep(k, k as usize),
    }
}

/// Whether each of 600 contexts, from the 257th on, pushes out the first that is left.
fn contexts_push_out(list: &mut IdleList) -> Result<bool, Memory>
    requires room { list.old.room ≡ 256 }
{
    let mut right = true;
    for id in 0..600u32 {
        let first = id.saturating_sub(256);
        let lost = (id >= 256).then_some((first, first as usize));
        right = parked(list, id)? == lost && right;
    }
    Ok(right)
}

/// Whether each of 600 layers, from the 257th on, pushes out the first that is left.
fn layers_push_out(list: &mut LayerList) -> Result<bool, Memory>
    requires room { list.old.room ≡ 256 }
{
    let mut right = true;
    for k in 0..600u16 {
        let first = k.saturating_sub(256);
        let lost = (k >= 256).then_some((first, first as usize));
        right = kept(list, k)? == lost && right;
    }
    Ok(right)
}

#[test]
fn the_257th_pushes_out_the_first(rt: HostRuntime) -> Result<(), Fail> {
    let mut idle = IdleList::open(rt.alloc(), 256)?;
    assert!(rt; contexts_push_out(&mut idle)?);
    assert_eq!(rt;
        (idle.is_full(), idle.last(), idle.find(3)),
        (true, Some(344), Some(599))
    );
    let mut layers = LayerList::open(rt.alloc(), 256)?;
    assert!(rt; layers_push_out(&mut layers)?);
    assert_eq!(rt;
        (
            layers.is_full(),
            layers.last(),
            layers.find(343),
            layers.find(344)
        ),
        (true, Some(344), None, Some(344))
    );
    Ok(())
}
