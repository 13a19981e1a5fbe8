//! Runs in parts, up to their stop.

ghost use Rattle.std.specs.Prelude.{◌≡◌, false, None, IfSome};
ghost use Rattle.context_runs.specs.OfLayers.{HasStopped, IsLayerUnderWay};
ghost use Rattle.context_runs.specs.OfRequests.{HasEnded, IsRequestUnderWay};

use context_runs::{LayerRun, PartEnd, RequestRun};
use context_uc::Context;
use hyper_calls::Ports;
use machine_model::Stop;
use machine_run::Steps;
use space_api::Space;
use std::sync::ledger::Ledger;

/// How many parts a run has at most.
const PARTS: u32 = 200;

/// What runs need beside their context.
#[derive(Drop)]
pub struct Bench<L: Ledger> {
    pub ports: Ports,
    pub steps: Steps<L>,
    /// How many instructions a part may take, or none where a run is one part.
    pub pause: Option<u64>,
}

/// How a run stopped, after how many instructions, and after how many parts that paused.
#[derive(Clone, Copy, Debug, PartialEq, Eq)]
pub struct Ended {
    pub stop: Stop,
    pub done: u64,
    pub pauses: u32,
}

/// Runs a layer to its stop. None is for want of memory, or where it has too many parts.
pub fn finish_layer<'a, S: Space, L: Ledger>(
    bench: &mut Bench<L>,
    context: &mut Context<'a, S>,
    run: &mut LayerRun,
) -> Option<Ended>
    requires plain { S.takes_frames ≡ false }
    requires loose { S.pin context.old.space ≡ None }
    requires under_way { IsLayerUnderWay context.old (S.flat context.old.space) bench.old.ports
        run.old }
    ensures stopped { IfSome result (λ e.
        HasStopped context.new (S.flat context.new.space) run.new e.stop) }
    ensures number { run.new.number ≡ run.old.number }
    ensures same { context.new ≡ record context.old {
      still = context.new.still;
      hart = context.new.hart;
      space = context.new.space;
    } }
    ensures loose { S.pin context.new.space ≡ None }
{
    'parts: for pauses in 0..PARTS {
        match run.go(context, &mut bench.ports, bench.pause, &mut bench.steps) {
            PartEnd::Stopped(stop) => {
                return Some(Ended {
                    stop,
                    done: run.done,
                    pauses,
                });
            }
            PartEnd::Paused => {}
            PartEnd::Memory => return None,
        }
    }
    None
}

/// Runs a request to its stop. None is for want of memory, or where it has too many parts.
pub fn finish_request<'a, S: Space, L: Ledger>(
    bench: &mut Bench<L>,
    context: &mut Context<'a, S>,
    run: &mut RequestRun,
) -> Option<Ended>
    requires plain { S.takes_frames ≡ false }
    requires loose { S.pin context.old.space ≡ None }
    requires under_way { IsRequestUnderWay context.old (S.flat context.old.space)
        bench.old.ports run.old }
    ensures ended { IfSome result (λ e.
        HasEnded context.new (S.flat context.new.space) bench.new.ports run.new e.stop) }
    ensures same { context.new ≡ record context.old {
      still = context.new.still;
      hart = context.new.hart;
      space = context.new.space;
    } }
    ensures loose { S.pin context.new.space ≡ None }
{
    'parts: for pauses in 0..PARTS {
        match run.go(context, &mut bench.ports, bench.pause, &mut bench.steps) {
            PartEnd::Stopped(stop) => {
                return Some(Ended {
                    stop,
                    done: run.done,
                    pauses,
                });
            }
            PartEnd::Paused => {}
            PartEnd::Memory => return None,
        }
    }
    None
}
