//! Contexts and layers that are pinned for a while.

ghost use Rattle.std.specs.Prelude.{◌≡◌, false};

use super::strips::answer;
use super::third;
use crate::{Bench, deploy};
use layer_model::Plan;
use space_api::{Kept, Parked, PinIn, Store};
use std::alloc::Global;
use std::sync::ledger::Ledger;

/// What a context tells of itself: its number, its function, the layer that it stands on, and how
/// many requests it has served.
fn told<C: Parked>(context: &C) -> (u32, u16, Option<u16>, usize) {
    let served = context.served().len();
    (context.id(), context.function(), context.layer(), served)
}

/// Whether a context tells this of itself while it is pinned.
fn tells_pinned<T: Store, C: Parked + PinIn<T>>(
    store: &T,
    shelf: &mut T::Shelf,
    context: &mut C,
    wanted: (u32, u16, Option<u16>, usize),
) -> bool
    requires { T.Space.takes_frames ≡ false }
    ensures { context.new ≡ context.old }
{
    context.pin_in(store, shelf);
    let pinned = told(context);
    context.unpin_in(store, shelf);
    pinned == wanted
}

/// What a layer tells of itself: its number, its start, and where its hart goes on.
fn kept<Z: Kept>(layer: &Z) -> (Option<u16>, u16, u64) {
    (layer.number(), layer.start(), layer.hart().pc)
}

/// Whether a layer tells this of itself while it is pinned.
fn keeps_pinned<T: Store, Z: Kept + PinIn<T>>(
    store: &T,
    shelf: &mut T::Shelf,
    layer: &mut Z,
    wanted: (Option<u16>, u16, u64),
) -> bool
    requires { T.Space.takes_frames ≡ false }
    ensures { layer.new ≡ layer.old }
{
    layer.pin_in(store, shelf);
    let pinned = kept(layer);
    layer.unpin_in(store, shelf);
    pinned == wanted
}

/// Whether the topmost of three layers and a context of it tell what they are while they are
/// pinned, and the context answers as it would have.
pub fn pins_between<T: Store, L: Ledger>(
    alloc: Global,
    store: &T,
    shelf: &mut T::Shelf,
    bench: &mut Bench<L>,
    plan: &Plan,
) -> Option<bool>
    requires plain { T.Space.takes_frames ≡ false }
    requires starts { T.starts store.now ≡ plan.now.starts }
{
    let mut top = third(alloc, store, shelf, bench, plan)?;
    let layer = keeps_pinned(store, shelf, &mut top, (Some(2), 0, 0x1_0008));
    let mut context = deploy(alloc, store, shelf, &mut top, 0)?;
    let unused = tells_pinned(store, shelf, &mut context, (1, 0, Some(2), 0));
    let first = answer(alloc, bench, &mut context, 3)?;
    let used = tells_pinned(store, shelf, &mut context, (1, 0, Some(2), 1));
    let second = answer(alloc, bench, &mut context, 4)?;
    Some(layer && unused && used && (first, second) == (6, 10))
}
