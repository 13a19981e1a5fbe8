//! What comes of the run of a layer.

ghost use Rattle.std.specs.Prelude.{◌≡◌, false, None, IfNone, IfSome};
ghost use Rattle.machine_model.specs.declared.stop.Stop.TheVariants as stop;
ghost use Rattle.space_api.specs.Holding.{holding_of};
ghost use Rattle.space_api.specs.Stores.{frozen_of, spaced_of};
ghost use Rattle.context_runs.specs.OfLayers.{EndsLayer, HasStopped, stop_of_why};

use crate::layer_run::LayerRun;
use context_uc::{Context, Layer, Taken, capture};
use journal_model::Why;
use machine_model::Stop;
use space_api::Store;
use std::alloc::Global;

/// What comes of the run of a layer.
#[derive(Drop)]
pub enum LayerEnd<L, C> {
    /// It came to its trigger: the layer, and the context, which stands at it and goes on above.
    /// So many pages were written in the layer's run.
    Reached { layer: L, context: C, pages: u32 },
    /// It stopped elsewhere, so that there is no layer. The context is as it was.
    Missed { context: C, why: Why },
    /// It came to its trigger, and memory ran out. The context is as it was.
    Memory(C),
}

/// Why there is no layer, where its run stopped so; none exactly where it stopped at its trigger.
fn why_of(stop: Stop) -> Option<Why>
    ensures some { IfSome result (λ why. stop ≡ stop_of_why why) }
    ensures none { IfNone result (stop ≡ Stop.Trigger) }
{
    match stop {
        Stop::Trigger => None,
        Stop::Budget => Some(Why::Budget),
        Stop::Exception { cause, pc, tval } => Some(Why::Fault { cause, pc, tval }),
        Stop::Rest => Some(Why::Rest),
        Stop::Halt { code } => Some(Why::Halt { code }),
    }
}

/// Takes the layer, where its run came to its trigger; else tells why there is none.
pub fn after_layer<'a, T: Store>(
    alloc: Global,
    store: &T,
    context: Context<'a, T::Space>,
    run: LayerRun,
    stop: Stop,
) -> LayerEnd<Layer<'a, T::Frozen>, Context<'a, T::Space>>
    requires plain { T.Space.takes_frames ≡ false }
    requires loose { T.Space.pin context.space ≡ None }
    requires stopped { HasStopped context (T.Space.flat context.space) run stop }
    ensures { EndsLayer T.Space.takes_frames T.Space.lacks_memory
        (λ z. frozen_of (T.Frozen.flat z) (T.Frozen.image z))
        (λ z. holding_of (T.Frozen.stake z) (T.Frozen.span z) (T.Frozen.pin z))
        (λ s. spaced_of (T.Space.flat s) (T.Space.spares s) (T.Space.finished s))
        (λ s. holding_of (T.Space.stake s) (T.Space.span s) (T.Space.pin s))
        run.number stop context.entry result }
{
    if let Some(why) = why_of(stop) {
        return LayerEnd::Missed { context, why };
    }
    context.plan().is_sound();
    match capture(alloc, store, context, run.number) {
        Taken::Done {
            layer,
            context,
            pages,
        } => LayerEnd::Reached {
            layer,
            context,
            pages,
        },
        Taken::NeedFrames(_) => unreachable!(),
        Taken::Memory(context) => LayerEnd::Memory(context),
    }
}
