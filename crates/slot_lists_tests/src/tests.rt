//! Each call once but `deploy`, and what a full list hands back. A context or a layer is a number.

ghost use Rattle.std.specs.Prelude.{◌≡◌, ◌<◌, nat_eq, None, OnOk, OnErr};
ghost use Rattle.std.specs.Map.{lookup};
ghost use Rattle.cache_lists.specs.Recent.{with_first};
ghost use Rattle.slot_lists.specs.Lists.{waiting_of};

use machine_model::Memory;
use slot_lists::{IdleSlots, LayerSlots};
use std::test::Fail;

/// A number of a context or a layer, with what stands under it.
type Lost = Option<(u32, u32)>;

/// Parks a context that isn't there; want of memory is a fault of the test.
fn parked(idle: &mut IdleSlots<u32>, id: u32, function: u16, context: u32) -> Result<Lost, Memory>
    requires room { 0 < idle.old.room }
    requires absent { lookup (nat_eq id) idle.old.entries ≡ None }
    ensures parked { OnOk result (idle.new
        ≡ with_first id (waiting_of function context) idle.old) }
{
    idle.park(id, function, context).map_err(|_| Memory)
}

/// Keeps a layer that isn't there; want of memory is a fault of the test.
fn kept(layers: &mut LayerSlots<u32>, k: u16, layer: u32) -> Result<Option<(u16, u32)>, Memory>
    requires room { 0 < layers.old.room }
    requires absent { lookup (nat_eq k) layers.old.entries ≡ None }
    ensures kept { OnOk result (layers.new ≡ with_first k layer layers.old) }
{
    layers.keep(k, layer).map_err(|_| Memory)
}

#[test]
fn the_last_context_is_handed_back(rt: HostRuntime) -> Result<(), Fail> {
    let mut idle = IdleSlots::open(rt.alloc(), 2)?;
    assert_eq!(rt; parked(&mut idle, 7, 1, 70)?, None);
    assert_eq!(rt; (idle.is_full(), idle.last()), (false, Some(7)));
    assert_eq!(rt; parked(&mut idle, 8, 1, 80)?, None);
    assert_eq!(rt; (idle.is_full(), idle.last()), (true, Some(7)));
    assert_eq!(rt; parked(&mut idle, 9, 2, 90)?, Some((7, 70)));
    assert_eq!(rt; (idle.is_full(), idle.last()), (true, Some(8)));
    idle.is_sound();
    Ok(())
}

#[test]
fn the_most_recently_parked_of_a_function_is_found(rt: HostRuntime) -> Result<(), Fail> {
    let mut idle = IdleSlots::open(rt.alloc(), 3)?;
    parked(&mut idle, 7, 1, 70)?;
    parked(&mut idle, 8, 1, 80)?;
    parked(&mut idle, 9, 2, 90)?;
    assert_eq!(rt;
        (idle.find(1), idle.find(2), idle.find(3)),
        (Some(8), Some(9), None)
    );
    Ok(())
}

#[test]
fn a_context_is_taken_from_the_middle(rt: HostRuntime) -> Result<(), Fail> {
    let mut idle = IdleSlots::open(rt.alloc(), 3)?;
    parked(&mut idle, 7, 1, 70)?;
    parked(&mut idle, 8, 1, 80)?;
    parked(&mut idle, 9, 1, 90)?;
    assert_eq!(rt; (idle.take(8), idle.take(8)), (Some(80), None));
    assert_eq!(rt;
        (idle.find(1), idle.last(), idle.is_full()),
        (Some(9), Some(7), false)
    );
    assert_eq!(rt; (idle.take(9), idle.take(7)), (Some(90), Some(70)));
    assert_eq!(rt; (idle.find(1), idle.last()), (None, None));
    Ok(())
}

#[test]
fn a_list_for_one_hands_back_each(rt: HostRuntime) -> Result<(), Fail> {
    let mut idle = IdleSlots::open(rt.alloc(), 1)?;
    assert_eq!(rt; parked(&mut idle, 7, 1, 70)?, None);
    assert_eq!(rt; parked(&mut idle, 8, 2, 80)?, Some((7, 70)));
    assert_eq!(rt; (idle.find(1), idle.find(2)), (None, Some(8)));
    let mut layers = LayerSlots::open(rt.alloc(), 1)?;
    assert_eq!(rt; kept(&mut layers, 4, 40)?, None);
    assert_eq!(rt; kept(&mut layers, 5, 50)?, Some((4, 40)));
    assert_eq!(rt; (layers.has(4), layers.get(5)), (false, Some(&50)));
    Ok(())
}

#[test]
fn layers_stay_in_the_order_in_which_they_came(rt: HostRuntime) -> Result<(), Fail> {
    let mut layers = LayerSlots::open(rt.alloc(), 2)?;
    assert_eq!(rt; kept(&mut layers, 4, 40)?, None);
    assert_eq!(rt; kept(&mut layers, 5, 50)?, None);
    assert_eq!(rt; (layers.is_full(), layers.last()), (true, Some(4)));
    assert_eq!(rt;
        (layers.get(4), layers.get(6), layers.has(5), layers.has(6)),
        (Some(&40), None, true, false)
    );
    assert_eq!(rt; kept(&mut layers, 6, 60)?, Some((4, 40)));
    layers.is_sound();
    assert_eq!(rt; (layers.take(5), layers.take(4)), (Some(50), None));
    assert_eq!(rt; (layers.is_full(), layers.last()), (false, Some(6)));
    Ok(())
}

#[test]
fn lists_without_room_are_full_and_empty(rt: HostRuntime) -> Result<(), Fail> {
    let idle = IdleSlots::<u32>::open(rt.alloc(), 0)?;
    let layers = LayerSlots::<u32>::open(rt.alloc(), 0)?;
    assert_eq!(rt;
        (idle.is_full(), idle.last(), idle.find(0)),
        (true, None, None)
    );
    assert_eq!(rt;
        (layers.is_full(), layers.last(), layers.has(0)),
        (true, None, false)
    );
    assert_eq!(rt;
        (idle.into_slots().len(), layers.into_slots().len()),
        (0, 0)
    );
    Ok(())
}

#[test]
fn what_is_left_stands_under_slots(rt: HostRuntime) -> Result<(), Fail> {
    let mut idle = IdleSlots::open(rt.alloc(), 2)?;
    parked(&mut idle, 7, 1, 70)?;
    parked(&mut idle, 8, 1, 80)?;
    parked(&mut idle, 9, 2, 90)?;
    let slots = idle.into_slots();
    let mut values = Vec::new(rt.alloc());
    for (_slot, value) in slots.iter() {
        values.push(*value)?;
    }
    values.sort()?;
    assert_eq!(rt; values.as_slice(), [80, 90].as_slice());
    Ok(())
}

/// Parks a context in a list with room for 256, where it isn't yet. Answers what was lost.
fn parked_anew(idle: &mut IdleSlots<u32>, id: u32) -> Result<Lost, Memory>
    requires room { idle.old.room ≡ 256 }
    ensures room { idle.new.room ≡ 256 }
{
    match idle.take(id) {
        Some(context) => Ok(Some((id, context))),
        None => idle.park(id, 3, id).map_err(|_| Memory),
    }
}

/// Keeps a layer in a list with room for 256, where it isn't yet. Answers what was lost.
fn kept_anew(layers: &mut LayerSlots<u32>, k: u16) -> Result<Option<(u16, u32)>, Memory>
    requires room { layers.old.room ≡ 256 }
    ensures room { layers.new.room ≡ 256 }
{
    match layers.take(k) {
        Some(layer) => Ok(Some((k, layer))),
        None => layers.keep(k, u32::from(k)).map_err(|_| Memory),
    }
}

/// Whether each of 600 contexts, from the 257th on, pushes out the first that is left.
fn contexts_push_out(idle: &mut IdleSlots<u32>) -> Result<bool, Memory>
    requires room { idle.old.room ≡ 256 }
{
    let mut right = true;
    for id in 0..600u32 {
        let first = id.saturating_sub(256);
        let lost = (id >= 256).then_some((first, first));
        right = parked_anew(idle, id)? == lost && right;
    }
    Ok(right)
}

/// Whether each of 600 layers, from the 257th on, pushes out the first that is left.
fn layers_push_out(layers: &mut LayerSlots<u32>) -> Result<bool, Memory>
    requires room { layers.old.room ≡ 256 }
{
    let mut right = true;
    for k in 0..600u16 {
        let first = k.saturating_sub(256);
        let lost = (k >= 256).then_some((first, u32::from(first)));
        right = kept_anew(layers, k)? == lost && right;
    }
    Ok(right)
}

#[test]
fn the_257th_pushes_out_the_first(rt: HostRuntime) -> Result<(), Fail> {
    let mut idle = IdleSlots::open(rt.alloc(), 256)?;
    assert!(rt; contexts_push_out(&mut idle)?);
    assert_eq!(rt;
        (idle.is_full(), idle.last(), idle.find(3)),
        (true, Some(344), Some(599))
    );
    let mut layers = LayerSlots::open(rt.alloc(), 256)?;
    assert!(rt; layers_push_out(&mut layers)?);
    assert_eq!(rt;
        (
            layers.is_full(),
            layers.last(),
            layers.has(343),
            layers.get(344)
        ),
        (true, Some(344), false, Some(&344))
    );
    Ok(())
}
