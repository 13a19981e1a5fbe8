//! A context that is stripped between two requests.

ghost use Rattle.std.specs.Prelude.{◌≡◌, ◌+◌, ◌<◌, false, length};
ghost use Rattle.context_uc_tests.specs.Standing.{IsOpen};

use super::third;
use crate::{Bench, deploy, serve};
use context_uc::{Context, strip};
use layer_model::Plan;
use machine_model::Packet;
use machine_run::RunEnd;
use space_api::{Given, Parked, Space, Store};
use std::alloc::Global;
use std::sync::ledger::Ledger;

/// The byte that a context answers a packet of one byte with. None is for want of memory, and for
/// any other answer.
pub fn answer<'a, S: Space, L: Ledger>(
    alloc: Global,
    bench: &mut Bench<L>,
    context: &mut Context<'a, S>,
    byte: u8,
) -> Option<u8>
    requires open { IsOpen S.pin context.old }
    ensures open { IsOpen S.pin context.new }
    ensures stripped { context.new.stripped ≡ context.old.stripped }
{
    let packet = Packet::new(Vec::from_slice(alloc, &[byte]).ok()?)?;
    let ended = serve(alloc, bench, context, Given { packet, clock: 0 })?;
    let RunEnd::Rest = ended.end else {
        return None;
    };
    if bench.ports.sent() != 1 {
        return None;
    }
    match bench.ports.packet(0) {
        [reply] => Some(*reply),
        _ => None,
    }
}

/// Strips a context, gives its spares back, and answers how many they were.
fn stripped<'a, T: Store>(
    store: &T,
    shelf: &mut T::Shelf,
    context: &mut Context<'a, T::Space>,
) -> u32
    requires open { IsOpen T.Space.pin context.old }
    requires served { context.old.stripped < length context.old.served }
    ensures number { result ≡ T.Space.spares context.old.space }
    ensures open { IsOpen T.Space.pin context.new }
    ensures counted { context.new.stripped ≡ context.old.stripped + 1 }
    ensures flat { T.Space.flat context.new.space ≡ T.Space.flat context.old.space }
{
    let spares = strip(store, context);
    let count = store.count(&spares);
    store.give_back(shelf, spares);
    count
}

/// Whether a context of the topmost of three layers answers 3 with 6 and then, stripped of
/// nothing, 4 with 10, and has served both.
pub fn strips_between<T: Store, L: Ledger>(
    alloc: Global,
    store: &T,
    shelf: &mut T::Shelf,
    bench: &mut Bench<L>,
    plan: &Plan,
) -> Option<bool>
    requires plain { T.Space.takes_frames ≡ false }
    requires starts { T.starts store.now ≡ plan.now.starts }
{
    let mut top = third(alloc, store, shelf, bench, plan)?;
    let mut context = deploy(alloc, store, shelf, &mut top, 0)?;
    let first = answer(alloc, bench, &mut context, 3)?;
    if context.served().len() != 1 {
        return None;
    }
    let spares = stripped(store, shelf, &mut context);
    let second = answer(alloc, bench, &mut context, 4)?;
    Some((first, spares, second, context.served().len()) == (6, 0, 10, 2))
}
