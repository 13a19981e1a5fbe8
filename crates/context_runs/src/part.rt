//! One part of a run of a context.

ghost use Rattle.std.specs.Prelude.{◌≡◌, ◌≢◌, ℕ, ◌+◌, ◌≤◌, true, false, None, IfSome, List};
ghost use Rattle.machine_model.specs.Machine.{Machine};
ghost use Rattle.machine_run.specs.Continued.{limits_of};
ghost use Rattle.space_api.specs.Flat.{machine_of};
ghost use Rattle.space_api.specs.Holding.{holding_of};
ghost use Rattle.context_runs.specs.SoFar.{EndsInTime, EndsPart, IsSoFar, TellsPart};

use context_uc::Context;
use hyper_calls::Ports;
use machine_model::Stop;
use machine_run::{Limits, Progress, RunEnd, Steps};
use space_api::Space;
use std::sync::ledger::Ledger;

/// How a part of a run ends.
#[derive(Clone, Copy, Debug, PartialEq, Eq)]
pub enum PartEnd {
    /// The run stopped so.
    Stopped(Stop),
    /// As many instructions were counted as this part may take. The run can go on.
    Paused,
    /// Memory ran out at the next instruction, which isn't done. The run can go on.
    Memory,
}

/// What the end of one call of a run is to a part, where no frames are taken.
fn part_end(end: RunEnd) -> PartEnd
    requires plain { end ≢ RunEnd.NeedFrames }
    ensures { TellsPart end result }
{
    match end {
        RunEnd::Rest => PartEnd::Stopped(Stop::Rest),
        RunEnd::Trigger => PartEnd::Stopped(Stop::Trigger),
        RunEnd::Halt(code) => PartEnd::Stopped(Stop::Halt { code }),
        RunEnd::Fault { cause, pc, tval } => PartEnd::Stopped(Stop::Exception { cause, pc, tval }),
        RunEnd::Budget => PartEnd::Stopped(Stop::Budget),
        RunEnd::Paused => PartEnd::Paused,
        RunEnd::Memory => PartEnd::Memory,
        RunEnd::NeedFrames => unreachable!(),
    }
}

/// Runs a context on, for a part of the run that it is in: whatever run that is.
pub(crate) fn run_part<'a, S: Space, L: Ledger>(
    context: &mut Context<'a, S>,
    ports: &mut Ports,
    limits: &Limits,
    progress: &mut Progress,
    steps: &mut Steps<L>,
) -> PartEnd
    requires plain { S.takes_frames ≡ false }
    requires loose { S.pin context.old.space ≡ None }
    requires budget { progress.old.done ≤ limits.now.budget }
    ensures ends { (m : Machine) (packets : List (List ℕ)) →
        IsSoFar ports.old.clock (limits_of limits.now) m packets progress.old.done
        (machine_of context.old.hart (S.flat context.old.space) ports.old.traffic) →
        EndsPart ports.old.clock (limits_of limits.now) m packets result progress.new.done
        (machine_of context.new.hart (S.flat context.new.space) ports.new.traffic) }
    ensures in_time { EndsInTime S.lacks_memory (limits_of limits.now) limits.now.pause result
        progress.old.done progress.new.done
        (machine_of context.new.hart (S.flat context.new.space) ports.new.traffic) }
    ensures within { (progress.old.done ≤ progress.new.done)
        × (progress.new.done ≤ limits.now.budget)
        × IfSome limits.now.pause (λ n. progress.new.done ≤ progress.old.done + n) }
    ensures ticks { steps.new + progress.old.done ≡ steps.old + progress.new.done }
    ensures clock { ports.new.clock ≡ ports.old.clock }
    ensures same { context.new ≡ record context.old {
      still = false;
      hart = context.new.hart;
      space = context.new.space;
    } }
    ensures held { (S.finished context.new.space ≡ true)
        × (S.spares context.new.space ≡ S.spares context.old.space)
        × (holding_of (S.stake context.new.space) (S.span context.new.space)
        (S.pin context.new.space) ≡ holding_of (S.stake context.old.space)
        (S.span context.old.space) None) }
{
    let end = context.go(ports, limits, progress, steps);
    part_end(end)
}
