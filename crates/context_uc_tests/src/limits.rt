//! One run of a context: what it is given, where it stops, and how it ended.

ghost use Rattle.std.specs.Prelude.{◌≡◌, ℕ, None, Some, IfSome, false};
ghost use Rattle.layer_model.specs.Layers as model;
ghost use Rattle.layer_model.specs.Replies as replies;
ghost use Rattle.machine_model.specs.Run.{IsRun, give};
ghost use Rattle.machine_model.specs.declared.stop.Stop.{Stop};
ghost use Rattle.machine_run.specs.Continued.{limits_of, stop_of};
ghost use Rattle.space_api.specs.Flat.{machine_of};
ghost use Rattle.context_uc.specs.Views.{silent};

use context_uc::Context;
use hyper_calls::Ports;
use layer_model::Plan;
use machine_run::{Limits, Progress, RunEnd, Steps, parts_are_the_run};
use plan_model::PlanLayer;
use space_api::{Packet, Space};
use std::alloc::Global;
use std::sync::ledger::Ledger;

/// What runs need beside their context.
#[derive(Drop)]
pub struct Bench<L: Ledger> {
    pub ports: Ports,
    pub steps: Steps<L>,
}

/// What a run is given, and where it stops.
#[derive(Drop)]
pub struct Asked<'a> {
    pub limits: Limits,
    pub packets: &'a [Packet],
    pub clock: u64,
}

/// How a run ended, and how many instructions were counted.
#[derive(Clone, Copy, Debug, PartialEq, Eq)]
pub struct Ended {
    pub end: RunEnd,
    pub done: u64,
}

/// Where the run of a layer stops: at its trigger, or after as many instructions as a layer may
/// take.
pub fn limits_of_layer(plan: &Plan, layer: &PlanLayer) -> Limits
    ensures { limits_of result ≡ model.layer_limits plan.now layer.now }
{
    Limits {
        trigger: Some(layer.trigger),
        budget: plan.numbers().prepare,
        pause: None,
    }
}

/// Where the run of a request stops: after as many instructions as a request may take.
pub fn limits_of_request(plan: &Plan) -> Limits
    ensures { limits_of result ≡ replies.request_limits plan.now }
{
    Limits {
        trigger: None,
        budget: plan.numbers().budget,
        pause: None,
    }
}

/// Runs a context that is given what is asked. None is for want of memory.
pub fn run_asked<'a, S: Space, L: Ledger>(
    alloc: Global,
    bench: &mut Bench<L>,
    context: &mut Context<'a, S>,
    asked: &Asked<'_>,
) -> Option<Ended>
    requires loose { S.pin context.old.space ≡ None }
    ensures runs { IfSome result (λ e. (stop : Stop) → stop_of e.end ≡ Some stop →
        IsRun asked.now.clock (limits_of asked.now.limits)
        (give (machine_of context.old.hart (S.flat context.old.space) silent)
        asked.now.packets.now) (record {
          stop = stop;
          number = e.done;
          machine = machine_of context.new.hart (S.flat context.new.space)
              bench.new.ports.traffic;
        })) }
    ensures same { IfSome result (λ _. context.new ≡ record context.old {
      still = false;
      hart = context.new.hart;
      space = context.new.space;
    }) }
    ensures loose { S.pin context.new.space ≡ None }
    ensures uses { context.new.uses ≡ context.old.uses }
    ensures stripped { context.new.stripped ≡ context.old.stripped }
{
    // This call does nothing: its contract is the law that the clause rests on.
    parts_are_the_run();
    bench.ports.begin(alloc, asked.packets, asked.clock).ok()?;
    let mut progress = Progress { done: 0 };
    let end = context.go(
        &mut bench.ports,
        &asked.limits,
        &mut progress,
        &mut bench.steps,
    );
    Some(Ended {
        end,
        done: progress.done,
    })
}
