//! What comes of the end of a layer's run.

ghost use Rattle.std.specs.Prelude.{◌≡◌, false, true, IfOk, OnErr};
ghost use Rattle.context_runs.specs.OfLayers.{StandsAbove, stop_of_why};
ghost use Rattle.layer_model.specs.Layers.{IsNoLayer};
ghost use Rattle.request_service.specs.Climbing.{ClimbsTo, IsLost};
ghost use Rattle.request_service.specs.UnderWay.{HostsInRun, IsKnownAs};
ghost use Rattle.service_layers.specs.Stopping.{MayEnd};

use book_core::{Book, Grounds};
use context_runs::{LayerEnd, LayerRun, after_layer, missed_reply};
use context_uc::{Context, Layer, end};
use deployer::keep_layer;
use journal_model::{Answer, Why};
use machine_model::{Memory, Stop};
use request_service::{InRun, Origin, Service, Turned, Work};
use service_ends::{answer_with, finish_request, lose_context};
use space_api::{Parked, Store};
use std::alloc::Global;

/// A layer isn't there, for this reason: the request is closed with that line, and its context is
/// over. The only error is want of memory, and stops the book.
fn miss_layer<'a, T: Store, G: Grounds<Context<'a, T::Space>, Layer<'a, T::Frozen>>>(
    alloc: Global,
    store: &T,
    book: &mut Book<Context<'a, T::Space>, Layer<'a, T::Frozen>, T::Shelf, G>,
    at: InRun<Context<'a, T::Space>, LayerRun>,
    why: Why,
) -> Result<Answer, Memory>
    requires copied { T.Space.takes_frames ≡ false }
    requires root { book.old.sizes.root ≡ 0 }
    requires known { IsKnownAs at.origin book.old.state }
    requires hosts { HostsInRun at.context.plan (record {
      flat = T.Space.flat;
      spares = T.Space.spares;
      finished = T.Space.finished;
      pin = T.Space.pin;
    }) at.origin.i at.context book.old }
    requires above { StandsAbove at.context.plan at.context.function at.context.layer
        at.run.number }
    requires none { IsNoLayer at.context.plan at.run.number (stop_of_why why) }
    ensures lost { IfOk result (λ answer. IsLost at.entry.context.plan at.entry.origin.i answer
        book.old book.new) }
    ensures stopped { OnErr result (book.new.stopped ≡ true) }
{
    book.is_sound();
    let InRun {
        origin,
        context,
        run,
    } = at;
    let reply = missed_reply(alloc, &context, run.number, why);
    let answer = answer_with(origin, reply);
    let spares = end(store, context);
    finish_request(store, book, &answer, spares)?;
    Ok(answer)
}

/// What comes of the run of a layer that stopped so. Where it came to its trigger, the layer is
/// kept and the context goes on above it; elsewhere, or where memory ran out, the request is
/// closed. The only error is want of memory, and stops the book.
pub fn end_layer<'a, T: Store, G: Grounds<Context<'a, T::Space>, Layer<'a, T::Frozen>>>(
    alloc: Global,
    store: &T,
    book: &mut Book<Context<'a, T::Space>, Layer<'a, T::Frozen>, T::Shelf, G>,
    at: InRun<Context<'a, T::Space>, LayerRun>,
    stop: Stop,
) -> Result<Turned<Context<'a, T::Space>, T::Space>, Memory>
    requires copied { T.Space.takes_frames ≡ false }
    requires may { MayEnd (record {
      flat = T.Space.flat;
      spares = T.Space.spares;
      finished = T.Space.finished;
      pin = T.Space.pin;
    }) T.Frozen.flat G.is_context G.is_layer at stop book.old }
    ensures climbs { IfOk result (λ turned. ClimbsTo at.entry.context.plan (record {
      flat = T.Space.flat;
      spares = T.Space.spares;
      finished = T.Space.finished;
      pin = T.Space.pin;
    }) at.entry.origin.i at.entry.context.layer at.entry.run.done turned book.old book.new) }
    ensures stopped { OnErr result (book.new.stopped ≡ true) }
{
    book.is_sound();
    let InRun {
        origin,
        context,
        run,
    } = at;
    context.plan().is_sound();
    match after_layer(alloc, store, context, run, stop) {
        LayerEnd::Reached {
            layer,
            context,
            pages,
        } => {
            layer.is_the_model();
            let c = context.id();
            keep_layer(store, book, c, layer, pages)?;
            Ok(Turned::Went(Service {
                origin,
                work: Work::Between(context),
            }))
        }
        LayerEnd::Missed { context, why } => {
            let at = InRun {
                origin,
                context,
                run,
            };
            Ok(Turned::Answered(miss_layer(alloc, store, book, at, why)?))
        }
        LayerEnd::Memory(context) => {
            let answer = lose_context(alloc, store, book, origin, context)?;
            Ok(Turned::Answered(answer))
        }
    }
}
