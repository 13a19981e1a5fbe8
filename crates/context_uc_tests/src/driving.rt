//! From an image up to a layer, and from a layer to replies.

ghost use Rattle.std.specs.Prelude.{◌≡◌, ℕ, ◌<◌, ◌≤◌, None, Some, IfSome, true, false};
ghost use Rattle.std.specs.Prelude.{length};
ghost use Rattle.context_uc.specs.Views.{level_of};
ghost use Rattle.context_uc_tests.specs.Standing.{StandsBelow, IsOpen};

use crate::limits::{Asked, Bench, Ended, limits_of_layer, limits_of_request, run_asked};
use context_uc::{Context, Layer, Taken, begin, capture};
use layer_model::Plan;
use machine_run::RunEnd;
use plan_model::PlanLayer;
use space_api::{Given, Kept, KeptIn, Parked, Space, Store};
use std::alloc::Global;
use std::slice;
use std::sync::ledger::Ledger;

/// How many requests a context may serve.
const USES: u32 = 64;

/// A context after the run of a layer, how that ended, and the layer, where it came to its
/// trigger, with the number of pages that were written.
#[derive(Drop)]
pub struct Climbed<Z: Drop, C: Drop> {
    pub context: C,
    pub ended: Ended,
    pub layer: Option<Z>,
    pub pages: u32,
}

/// The image of the plan with the number of its start.
pub fn image<'a, T: Store>(
    alloc: Global,
    store: &T,
    shelf: &mut T::Shelf,
    plan: &'a Plan,
    start: u16,
) -> Option<Layer<'a, T::Frozen>>
    requires plain { T.Space.takes_frames ≡ false }
    requires starts { T.starts store.now ≡ plan.now.starts }
    ensures loose { IfSome result (λ l. T.Frozen.pin l.frozen ≡ None) }
{
    if usize::from(start) >= plan.starts().len() {
        return None;
    }
    let frozen = store.open_image(alloc, shelf, start).ok()?;
    Some(Layer::image(plan, start, frozen))
}

/// Whether a place is one of the first 64 layers, or an image.
fn is_low(place: Option<u16>) -> bool
    ensures { result ≡ true → level_of place ≤ 64 }
{
    match place {
        Some(number) => number < 64,
        None => true,
    }
}

/// A context of the function that stands at the layer and has served nothing. None is for want of
/// memory, or where the function stands on another image.
pub fn deploy<'a, T: Store>(
    alloc: Global,
    store: &T,
    shelf: &mut T::Shelf,
    below: &mut Layer<'a, T::Frozen>,
    function: u16,
) -> Option<Context<'a, T::Space>>
    requires plain { T.Space.takes_frames ≡ false }
    requires loose { T.Frozen.pin below.old.frozen ≡ None }
    ensures open { IfSome result (λ c. IsOpen T.Space.pin c) }
    ensures unstripped { IfSome result (λ c. c.stripped ≡ 0) }
    ensures loose { T.Frozen.pin below.new.frozen ≡ None }
{
    let plan = below.plan();
    let found = plan.functions().get(usize::from(function))?;
    let layer = plan.layers().get(usize::from(found.layer))?;
    let number = below.number();
    if layer.start != below.start() || !is_low(number) {
        return None;
    }
    below.is_the_model();
    let hart = *below.hart();
    let mut space = below.deploy_on(alloc, store, shelf).ok()?;
    store.finish_deploy(&mut space);
    begin(alloc, plan, 1, function, number, hart, space, USES).ok()
}

/// The layer of the number, if it stands directly above the context, which has served nothing.
fn layer_above<'a, S: Space>(context: &Context<'a, S>, number: u16) -> Option<&'a PlanLayer>
    ensures { IfSome result (λ layer. StandsBelow context.now number layer.now) }
{
    let plan = context.plan();
    let found = plan.functions().get(usize::from(context.function()))?;
    let top = plan.layers().get(usize::from(found.layer))?;
    let layer = plan.layers().get(usize::from(number))?;
    if layer.start != top.start || layer.below != context.layer() {
        return None;
    }
    if !context.is_still() || !context.served().is_empty() {
        return None;
    }
    Some(layer)
}

/// Runs a context up to the trigger of the layer above it, and takes the layer. None is for want
/// of memory, or where the layer isn't directly above it.
pub fn climb<'a, T: Store, L: Ledger>(
    alloc: Global,
    store: &T,
    bench: &mut Bench<L>,
    context: Context<'a, T::Space>,
    number: u16,
) -> Option<Climbed<Layer<'a, T::Frozen>, Context<'a, T::Space>>>
    requires open { IsOpen T.Space.pin context }
    ensures open { IfSome result (λ c. IsOpen T.Space.pin c.context) }
    ensures loose { IfSome result (λ c. IfSome c.layer (λ l. T.Frozen.pin l.frozen ≡ None)) }
{
    let mut context = context;
    let layer = layer_above(&context, number)?;
    context.is_the_model();
    let asked = Asked {
        limits: limits_of_layer(context.plan(), layer),
        packets: layer.packets.as_slice(),
        clock: 0,
    };
    let ended = run_asked(alloc, bench, &mut context, &asked)?;
    let RunEnd::Trigger = ended.end else {
        return Some(Climbed {
            context,
            ended,
            layer: None,
            pages: 0,
        });
    };
    match capture(alloc, store, context, number) {
        Taken::Done {
            layer,
            context,
            pages,
        } => Some(Climbed {
            context,
            ended,
            layer: Some(layer),
            pages,
        }),
        Taken::NeedFrames(_) => None,
        Taken::Memory(_) => None,
    }
}

/// Runs a context on a request, and notes it where the run rested. None is for want of memory, or
/// where the context isn't between runs or has served as often as it may.
pub fn serve<'a, S: Space, L: Ledger>(
    alloc: Global,
    bench: &mut Bench<L>,
    context: &mut Context<'a, S>,
    given: Given,
) -> Option<Ended>
    requires open { IsOpen S.pin context.old }
    ensures open { IsOpen S.pin context.new }
    ensures stripped { context.new.stripped ≡ context.old.stripped }
{
    if !context.is_still() || context.served().len() >= USES as usize {
        return None;
    }
    context.is_the_model();
    let asked = Asked {
        limits: limits_of_request(context.plan()),
        packets: slice::from_ref(&given.packet),
        clock: given.clock,
    };
    let ended = run_asked(alloc, bench, context, &asked)?;
    if let RunEnd::Rest = ended.end {
        context.served_one(given);
    }
    Some(ended)
}
