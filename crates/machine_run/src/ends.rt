//! Where a run ends before its next instruction.

ghost use Rattle.std.specs.Prelude.{◌≡◌, ◌<◌, ◌≤◌, ℕ, false, IfSome, IfNone};
ghost use Rattle.machine_model.specs.Machine.{Machine};
ghost use Rattle.machine_model.specs.Run.{at_trigger};
ghost use Rattle.space_api.specs.Flat.{Flat, Traffic, machine_of};
ghost use Rattle.machine_run.specs.Continued.{limits_of};
ghost use Rattle.machine_run.specs.Ending.{EndsAt, EndsPart, IsPart};
ghost use Rattle.machine_run.specs.Frames.{IsUndone};

use crate::limits::{Part, RunEnd};
use space_api::Hart;

/// Whether a run stops at its trigger.
#[inline]
fn is_at(hart: &Hart, trigger: Option<u64>, number: u64) -> bool
    ensures { (flat : Flat) (traffic : Traffic) →
        result ≡ at_trigger trigger number (machine_of hart.now flat traffic) }
{
    match trigger {
        Some(a) => number >= 1 && hart.pc == a,
        None => false,
    }
}

/// Why a run ends before its next instruction, where `number` are counted: at the trigger, where
/// its budget ends, or where its part does.
#[inline]
pub fn end_before(hart: &Hart, part: &Part, number: u64) -> Option<RunEnd>
    requires part { IsPart part.now }
    requires within { number ≤ part.now.until }
    ensures below { IfNone result (number < part.now.until) }
    ensures goes { (flat : Flat) (traffic : Traffic) → IfNone result (at_trigger
        part.now.limits.trigger number (machine_of hart.now flat traffic) ≡ false) }
    ensures ends { (clock : ℕ) (flat : Flat) (traffic : Traffic) →
        let here = machine_of hart.now flat traffic in IfSome result (λ end.
        EndsAt clock (limits_of part.now.limits) number here end number here) }
    ensures part { (clock : ℕ) (m : Machine) (flat : Flat) (traffic : Traffic) →
        let here = machine_of hart.now flat traffic in
        IfSome result (λ end. EndsPart end clock part.now m number here) }
    ensures done { IfSome result (λ end. IsUndone end → ⊥) }
{
    if is_at(hart, part.limits.trigger, number) {
        return Some(RunEnd::Trigger);
    }
    if number != part.until {
        return None;
    }
    if part.until == part.limits.budget {
        return Some(RunEnd::Budget);
    }
    Some(RunEnd::Paused)
}
