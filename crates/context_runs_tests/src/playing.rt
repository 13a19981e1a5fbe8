//! One context from its image up to its function's layer, and two requests.

ghost use Rattle.std.specs.Prelude.{◌≡◌, true, false, None, IfSome, IfNone};
ghost use Rattle.context_runs.specs.OfLayers.{IsAbove, IsOnStack};
ghost use Rattle.context_runs_tests.specs.Climbing.{IsUp, MayClimb, Misses};

use crate::running::{Bench, Ended, finish_layer, finish_request};
use context_runs::{
    LayerEnd, RunReply, Spot, after_layer, after_request, begin_at, begin_layer, begin_request,
    missed_reply, next_layer,
};
use context_uc::{Context, Layer};
use journal_model::Why;
use layer_model::Plan;
use space_api::{Given, Kept, KeptIn, Parked, Space, Store};
use std::alloc::Global;
use std::sync::ledger::Ledger;

/// A context after the run of a layer, how that ended, and why there is no layer, if there is
/// none.
#[derive(Drop)]
pub struct Climbed<C: Drop> {
    pub context: C,
    pub ended: Ended,
    pub why: Option<Why>,
}

/// A context of the plan's first function on an image, where the function stands on that. None is
/// for want of memory too.
pub fn deploy<'a, T: Store>(
    alloc: Global,
    store: &T,
    shelf: &mut T::Shelf,
    image: &mut Layer<'a, T::Frozen>,
) -> Option<Context<'a, T::Space>>
    requires plain { T.Space.takes_frames ≡ false }
    requires loose { T.Frozen.pin image.old.frozen ≡ None }
    ensures fresh { IfSome result (λ c. MayClimb T.Space.pin c) }
{
    let plan = image.plan();
    let found = plan.functions().first()?;
    let layer = plan.layers().get(usize::from(found.layer))?;
    if layer.start != image.start() || image.number().is_some() {
        return None;
    }
    image.is_the_model();
    let spot = Spot {
        context: 1,
        function: 0,
        place: None,
        hart: *image.hart(),
    };
    let space = image.deploy_on(alloc, store, shelf).ok()?;
    begin_at(alloc, store, plan, spot, space).ok()
}

/// Runs a context up to the trigger of the layer above it. None is for want of memory.
pub fn climb<'a, T: Store, L: Ledger>(
    alloc: Global,
    store: &T,
    bench: &mut Bench<L>,
    context: Context<'a, T::Space>,
    number: u16,
) -> Option<Climbed<Context<'a, T::Space>>>
    requires plain { T.Space.takes_frames ≡ false }
    requires ready { MayClimb T.Space.pin context }
    requires above { IsAbove context number }
    requires on_stack { IsOnStack context.plan context.function (Some number) }
    ensures up { IfSome result (λ c. IfNone c.why (MayClimb T.Space.pin c.context)) }
    ensures missed { IfSome result (λ c. IfSome c.why (λ why. Misses c.context number why)) }
{
    let mut context = context;
    let mut run = begin_layer(alloc, &context, &mut bench.ports, number).ok()?;
    let ended = finish_layer(bench, &mut context, &mut run)?;
    match after_layer(alloc, store, context, run, ended.stop) {
        LayerEnd::Reached {
            layer: _,
            context,
            pages: _,
        } => Some(Climbed {
            context,
            ended,
            why: None,
        }),
        LayerEnd::Missed { context, why } => Some(Climbed {
            context,
            ended,
            why: Some(why),
        }),
        LayerEnd::Memory(_) => None,
    }
}

/// A context after the runs of the layers above it, how many were taken, how the last run ended,
/// and the reply where there is no layer.
#[derive(Drop)]
pub struct Arrived<C: Drop> {
    pub context: C,
    pub layers: u32,
    pub last: Option<Ended>,
    pub missed: Option<RunReply>,
}

/// Whether the context stands at its function's layer, between runs. It is taken up to there by
/// the runs of the layers above it, at most 64. None is for want of memory.
pub fn climb_all<'a, T: Store, L: Ledger>(
    alloc: Global,
    store: &T,
    bench: &mut Bench<L>,
    context: Context<'a, T::Space>,
) -> Option<Arrived<Context<'a, T::Space>>>
    requires plain { T.Space.takes_frames ≡ false }
    requires ready { MayClimb T.Space.pin context }
    ensures up { IfSome result (λ a. IfNone a.missed (IsUp T.Space.pin a.context)) }
{
    let mut context = context;
    let mut last = None;
    'layers: for layers in 0..65 {
        let Some(number) = next_layer(&context) else {
            return Some(Arrived {
                context,
                layers,
                last,
                missed: None,
            });
        };
        let climbed = climb(alloc, store, bench, context, number)?;
        context = climbed.context;
        last = Some(climbed.ended);
        if let Some(why) = climbed.why {
            let reply = missed_reply(alloc, &context, number, why);
            return Some(Arrived {
                context,
                layers,
                last,
                missed: Some(reply),
            });
        }
    }
    None
}

/// Runs a context on a request. None is for want of memory, or where the context isn't between
/// runs or has served as often as it may.
pub fn serve<'a, S: Space, L: Ledger>(
    alloc: Global,
    bench: &mut Bench<L>,
    context: &mut Context<'a, S>,
    given: Given,
) -> Option<(RunReply, Ended)>
    requires plain { S.takes_frames ≡ false }
    requires ready { IsUp S.pin context.old }
    ensures ready { IfSome result (λ _. IsUp S.pin context.new) }
{
    let uses = context.plan().numbers().uses as usize;
    if !context.is_still() || context.served().len() >= uses {
        return None;
    }
    let mut run = begin_request(alloc, context, &mut bench.ports, given).ok()?;
    let ended = finish_request(bench, context, &mut run)?;
    let reply = after_request(alloc, context, &bench.ports, run, ended.stop).ok()?;
    Some((reply, ended))
}
