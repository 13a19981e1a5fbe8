//! The run of a request.

ghost use Rattle.std.specs.Prelude.{◌≡◌, ◌+◌, ◌≤◌, true, false, None, [], IfOk, IfSome, OnErr};
ghost use Rattle.hyper_calls.specs.Exchange.{starting};
ghost use Rattle.layer_model.specs.Replies.{request_limits};
ghost use Rattle.machine_run.specs.Continued.{limits_of};
ghost use Rattle.space_api.specs.Flat.{machine_of};
ghost use Rattle.space_api.specs.Holding.{holding_of};
ghost use Rattle.context_runs.specs.OfRequests.{EndsRequestPart, IsRequestUnderWay, MayServe};
ghost use Rattle.context_runs.specs.SoFar.{EndsInTime};

use crate::part::{PartEnd, run_part};
use context_uc::Context;
use hyper_calls::Ports;
use layer_model::Plan;
use machine_model::Memory;
use machine_run::{Limits, Progress, Steps};
use space_api::{Given, Space};
use std::alloc::Global;
use std::slice;
use std::sync::ledger::Ledger;

/// The run of a request, so far.
#[derive(Debug, Drop)]
pub struct RequestRun {
    /// What it was given: its packet, and what its clock shows.
    pub given: Given,
    /// How many of its instructions were counted, over all its parts.
    pub done: u64,
}

/// Where the run of a request stops: after as many instructions as a request may take. One part
/// pauses after so many.
fn request_stops(plan: &Plan, pause: Option<u64>) -> Limits
    ensures limits { limits_of result ≡ request_limits plan.now }
    ensures pause { result.pause ≡ pause }
{
    Limits {
        trigger: None,
        budget: plan.numbers().budget,
        pause,
    }
}

/// Begins the run of a request on a context that stands at its function's layer: it is given the
/// packet, and its clock shows what came with that. The only error is want of memory.
pub fn begin_request<'a, S: Space>(
    alloc: Global,
    context: &Context<'a, S>,
    ports: &mut Ports,
    given: Given,
) -> Result<RequestRun, Memory>
    requires still { context.now.still ≡ true }
    requires may { MayServe context.now }
    ensures begun { IfOk result (λ run. run ≡ record { given = given; done = 0 }) }
    ensures under_way { IfOk result (λ run.
        IsRequestUnderWay context.now (S.flat context.now.space) ports.new run) }
    ensures empty { OnErr result (ports.new ≡ starting given.clock []) }
{
    context.is_the_model();
    ports.begin(alloc, slice::from_ref(&given.packet), given.clock)?;
    Ok(RequestRun { given, done: 0 })
}

impl RequestRun {
    /// Runs on, up to the run's first stop or for so many instructions. It goes on where it was
    /// after `Paused` and `Memory`. Each instruction that is counted ticks once.
    pub fn go<'a, S: Space, L: Ledger>(
        &mut self,
        context: &mut Context<'a, S>,
        ports: &mut Ports,
        pause: Option<u64>,
        steps: &mut Steps<L>,
    ) -> PartEnd
        requires plain { S.takes_frames ≡ false }
        requires loose { S.pin context.old.space ≡ None }
        requires under_way { IsRequestUnderWay context.old (S.flat context.old.space) ports.old
            self.old }
        ensures ends { EndsRequestPart context.new (S.flat context.new.space) ports.new self.new
            result }
        ensures in_time { EndsInTime S.lacks_memory (request_limits context.old.plan) pause result
            self.old.done self.new.done
            (machine_of context.new.hart (S.flat context.new.space) ports.new.traffic) }
        ensures within { (self.old.done ≤ self.new.done)
            × (self.new.done ≤ context.old.plan.numbers.budget)
            × IfSome pause (λ n. self.new.done ≤ self.old.done + n) }
        ensures ticks { steps.new + self.old.done ≡ steps.old + self.new.done }
        ensures given { self.new.given ≡ self.old.given }
        ensures clock { ports.new.clock ≡ ports.old.clock }
        ensures same { context.new ≡ record context.old {
          still = false;
          hart = context.new.hart;
          space = context.new.space;
        } }
        ensures held { (S.finished context.new.space ≡ true)
            × (S.spares context.new.space ≡ S.spares context.old.space)
            × (holding_of (S.stake context.new.space) (S.span context.new.space)
            (S.pin context.new.space) ≡ holding_of (S.stake context.old.space)
            (S.span context.old.space) None) }
    {
        let limits = request_stops(context.plan(), pause);
        let mut progress = Progress { done: self.done };
        let end = run_part(context, ports, &limits, &mut progress, steps);
        self.done = progress.done;
        end
    }
}
