//! The run of the layer above a context.

ghost use Rattle.std.specs.Prelude.{◌≡◌, ◌+◌, ◌≤◌, true, false, None, [], IfOk, IfSome, OnErr};
ghost use Rattle.std.specs.Prelude.{slice_get};
ghost use Rattle.hyper_calls.specs.Exchange.{starting};
ghost use Rattle.layer_model.specs.Layers.{layer_limits};
ghost use Rattle.machine_run.specs.Continued.{limits_of};
ghost use Rattle.space_api.specs.Flat.{machine_of};
ghost use Rattle.space_api.specs.Holding.{holding_of};
ghost use Rattle.context_runs.specs.OfLayers.{EndsLayerPart, IsAbove, IsLayerUnderWay};
ghost use Rattle.context_runs.specs.SoFar.{EndsInTime};

use crate::part::{PartEnd, run_part};
use context_uc::Context;
use hyper_calls::Ports;
use layer_model::Plan;
use machine_model::Memory;
use machine_run::{Limits, Progress, Steps};
use plan_model::PlanLayer;
use space_api::Space;
use std::alloc::Global;
use std::sync::ledger::Ledger;

/// The run of a layer, so far.
#[derive(Clone, Copy, Debug, PartialEq, Eq)]
pub struct LayerRun {
    /// The number of the layer.
    pub number: u16,
    /// How many of its instructions were counted, over all its parts.
    pub done: u64,
}

/// Where the run of a layer stops: at its trigger, or after as many instructions as a layer may
/// take. One part pauses after so many.
fn layer_stops(plan: &Plan, layer: &PlanLayer, pause: Option<u64>) -> Limits
    ensures limits { limits_of result ≡ layer_limits plan.now layer.now }
    ensures pause { result.pause ≡ pause }
{
    Limits {
        trigger: Some(layer.trigger),
        budget: plan.numbers().prepare,
        pause,
    }
}

/// Begins the run of the layer of the number, which stands directly above the context: it is given
/// the layer's packets, and its clock shows 0. The only error is want of memory.
pub fn begin_layer<'a, S: Space>(
    alloc: Global,
    context: &Context<'a, S>,
    ports: &mut Ports,
    number: u16,
) -> Result<LayerRun, Memory>
    requires still { context.now.still ≡ true }
    requires above { IsAbove context.now number }
    ensures begun { IfOk result (λ run. run ≡ record { number = number; done = 0 }) }
    ensures under_way { IfOk result (λ run.
        IsLayerUnderWay context.now (S.flat context.now.space) ports.new run) }
    ensures empty { OnErr result (ports.new ≡ starting 0 []) }
{
    context.is_the_model();
    let layer = &context.plan().layers()[usize::from(number)];
    ports.begin(alloc, layer.packets.as_slice(), 0)?;
    Ok(LayerRun { number, done: 0 })
}

impl LayerRun {
    /// Runs on, up to the run's first stop or for so many instructions. It goes on where it was
    /// after `Paused` and `Memory`. Each instruction that is counted ticks once.
    pub fn go<'a, S: Space, L: Ledger>(
        &mut self,
        context: &mut Context<'a, S>,
        ports: &mut Ports,
        pause: Option<u64>,
        steps: &mut Steps<L>,
    ) -> PartEnd
        requires plain { S.takes_frames ≡ false }
        requires loose { S.pin context.old.space ≡ None }
        requires under_way { IsLayerUnderWay context.old (S.flat context.old.space) ports.old
            self.old }
        ensures ends { EndsLayerPart context.new (S.flat context.new.space) ports.new self.new
            result }
        ensures in_time { IfSome (slice_get context.old.plan.layers self.old.number) (λ layer.
            EndsInTime S.lacks_memory (layer_limits context.old.plan layer) pause result
            self.old.done self.new.done
            (machine_of context.new.hart (S.flat context.new.space) ports.new.traffic)) }
        ensures within { (self.old.done ≤ self.new.done)
            × (self.new.done ≤ context.old.plan.numbers.prepare)
            × IfSome pause (λ n. self.new.done ≤ self.old.done + n) }
        ensures ticks { steps.new + self.old.done ≡ steps.old + self.new.done }
        ensures number { self.new.number ≡ self.old.number }
        ensures clock { ports.new.clock ≡ ports.old.clock }
        ensures same { context.new ≡ record context.old {
          still = false;
          hart = context.new.hart;
          space = context.new.space;
        } }
        ensures held { (S.finished context.new.space ≡ true)
            × (S.spares context.new.space ≡ S.spares context.old.space)
            × (holding_of (S.stake context.new.space) (S.span context.new.space)
            (S.pin context.new.space) ≡ holding_of (S.stake context.old.space)
            (S.span context.old.space) None) }
    {
        let plan = context.plan();
        let limits = layer_stops(plan, &plan.layers()[usize::from(self.number)], pause);
        let mut progress = Progress { done: self.done };
        let end = run_part(context, ports, &limits, &mut progress, steps);
        self.done = progress.done;
        end
    }
}
