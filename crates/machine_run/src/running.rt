//! A run to its first stop, in parts.

ghost use Rattle.std.specs.Prelude.{◌≡◌, ◌≢◌, ◌↔◌, ℕ, ◌+◌, ◌<◌, ◌≤◌, true, false, IfSome};
ghost use Rattle.space_api.specs.Flat.{Flat, machine_of};
ghost use Rattle.space_api.specs.Frames.{Spent};
ghost use Rattle.machine_run.specs.Continued.{limits_of, woken, RunsTo, RunsOn};
ghost use Rattle.machine_run.specs.Ending.{EndsPart, IsPart};
ghost use Rattle.machine_run.specs.Frames.{IsUndone, WantsRightly};
ghost use Rattle.machine_run.specs.Stopping.{Pauses, StopsForFrames};

use crate::ends::end_before;
use crate::limits::{Limits, Part, Progress, RunEnd};
use crate::steps::Steps;
use crate::turn::{Turn, take_turn};
use hyper_calls::Ports;
use space_api::{Hart, Space};
use std::sync::ledger::Ledger;

/// The register of a hypercall's result.
const A0: u8 = 10;

/// The result of a wait that ends.
const PACKET_QUEUED: u64 = 1;

/// Ends the wait of a hart that rests, where a packet is queued.
fn wake(hart: &mut Hart, ports: &Ports)
    ensures { (flat : Flat) → machine_of hart.new flat ports.now.traffic
        ≡ woken (machine_of hart.old flat ports.now.traffic) }
{
    if hart.resting && ports.is_queued() {
        hart.set_register(A0, PACKET_QUEUED);
        hart.resting = false;
    }
}

/// What a call does that goes on where `from` instructions are counted.
fn part_of(limits: &Limits, from: u64) -> Part
    requires { from ≤ limits.now.budget }
    ensures limits { result.limits ≡ limits.now }
    ensures from { result.from ≡ from }
    ensures part { IsPart result }
{
    let until = match limits.pause {
        Some(n) => {
            if n < limits.budget - from {
                from + n
            } else {
                limits.budget
            }
        }
        None => limits.budget,
    };
    Part {
        limits: *limits,
        from,
        until,
    }
}

/// Runs a part, to the first stop or until so many instructions are counted.
fn turns<S: Space, L: Ledger>(
    hart: &mut Hart,
    space: &mut S,
    ports: &mut Ports,
    part: &Part,
    steps: &mut Steps<L>,
) -> (RunEnd, u64)
    requires part { IsPart part.now }
    requires finished { S.finished space.old ≡ true }
    ensures runs { RunsTo ports.old.clock (limits_of part.now.limits) part.now.from
        (machine_of hart.old (S.flat space.old) ports.old.traffic) result.0 result.1
        (machine_of hart.new (S.flat space.new) ports.new.traffic) }
    ensures within { (part.now.from ≤ result.1) × (result.1 ≤ part.now.until) }
    ensures part { EndsPart result.0 ports.old.clock part.now
        (machine_of hart.old (S.flat space.old) ports.old.traffic) result.1
        (machine_of hart.new (S.flat space.new) ports.new.traffic) }
    ensures wants { IsUndone result.0 → WantsRightly result.0 S.takes_frames S.lacks_memory
        (S.spares space.new) ports.old.clock
        (machine_of hart.new (S.flat space.new) ports.new.traffic) }
    ensures ticks { steps.new + part.now.from ≡ steps.old + result.1 }
    ensures clock { ports.new.clock ≡ ports.old.clock }
    ensures resting { result.0 ≢ RunEnd.Rest → hart.new.resting ≡ hart.old.resting }
    ensures spent { Spent S.takes_frames (S.spares space.old) (S.flat space.old).written
        (S.spares space.new) (S.flat space.new).written }
    ensures held { (S.finished space.new ≡ true) × (S.stake space.new ≡ S.stake space.old)
        × (S.span space.new ≡ S.span space.old) }
{
    let mut number = part.from;
    'turns: loop {
        if let Some(end) = end_before(hart, part, number) {
            return (end, number);
        }
        let turn = take_turn(hart, space, ports);
        match turn {
            Turn::Goes => {
                steps.tick();
                number += 1;
            }
            Turn::Counted(end) => {
                steps.tick();
                return (end, number + 1);
            }
            Turn::Uncounted(end) => return (end, number),
        }
    }
}

/// Runs to the first stop, and goes on where it was after `Paused`, `NeedFrames` and `Memory`.
///
/// It looks for stops in this order: the trigger, the budget, the pause, and what the next
/// instruction does. A hart that rests goes on where a packet is queued, and is at rest already
/// where none is.
pub fn run<S: Space, L: Ledger>(
    hart: &mut Hart,
    space: &mut S,
    ports: &mut Ports,
    limits: &Limits,
    progress: &mut Progress,
    steps: &mut Steps<L>,
) -> RunEnd
    requires budget { progress.old.done ≤ limits.now.budget }
    requires finished { S.finished space.old ≡ true }
    ensures runs { RunsOn ports.old.clock (limits_of limits.now) progress.old.done
        (machine_of hart.old (S.flat space.old) ports.old.traffic) result progress.new.done
        (machine_of hart.new (S.flat space.new) ports.new.traffic) }

    // One call counts at most as many as its pause, and the run at most as many as its budget; it
    // looks at an instruction only below them.
    ensures within { (progress.old.done ≤ progress.new.done)
        × (progress.new.done ≤ limits.now.budget) }
    ensures pause { IfSome limits.now.pause (λ n.
        progress.new.done ≤ progress.old.done + n) }
    ensures below { IsUndone result → (progress.new.done < limits.now.budget)
        × IfSome limits.now.pause (λ n. progress.new.done < progress.old.done + n) }

    // It pauses exactly there, and wants frames exactly where the next instruction alone can stop
    // it and takes more of them than the space has spares.
    ensures paused { (result ≡ RunEnd.Paused) ↔ Pauses ports.old.clock limits.now
        progress.old.done (woken (machine_of hart.old (S.flat space.old) ports.old.traffic))
        progress.new.done (machine_of hart.new (S.flat space.new) ports.new.traffic) }
    ensures frames { (result ≡ RunEnd.NeedFrames) ↔ StopsForFrames S.takes_frames
        (S.spares space.new) ports.old.clock limits.now progress.old.done
        (woken (machine_of hart.old (S.flat space.old) ports.old.traffic)) progress.new.done
        (machine_of hart.new (S.flat space.new) ports.new.traffic) }
    ensures memory { result ≡ RunEnd.Memory → S.lacks_memory ≡ true }

    ensures ticks { steps.new + progress.old.done ≡ steps.old + progress.new.done }
    ensures clock { ports.new.clock ≡ ports.old.clock }
    ensures awake { result ≢ RunEnd.Rest → hart.new.resting ≡ false }
    ensures spent { Spent S.takes_frames (S.spares space.old) (S.flat space.old).written
        (S.spares space.new) (S.flat space.new).written }
    ensures held { (S.finished space.new ≡ true) × (S.stake space.new ≡ S.stake space.old)
        × (S.span space.new ≡ S.span space.old) }
{
    wake(hart, ports);
    if hart.resting {
        return RunEnd::Rest;
    }
    let part = part_of(limits, progress.done);
    let (end, done) = turns(hart, space, ports, &part, steps);
    progress.done = done;
    end
}
