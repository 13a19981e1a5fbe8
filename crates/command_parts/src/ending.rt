//! How a command ends.

ghost use Rattle.std.specs.Prelude.{◌≤◌};
ghost use Rattle.command_parts.specs.Ending.{EndsAs, Reports};
ghost use Rattle.command_parts.specs.Outside.{see};
ghost use Rattle.command_parts.specs.Refusals.{line_of};

use crate::cause::{Cause, Status};
use crate::refusal::Refusal;
use edge_streams::{Sink, write_all};

/// Says why a command is refused. A fault there changes nothing.
pub fn report<C: Cause, E: Sink>(errs: &mut E, refusal: &Refusal<C>)
    ensures reported { Reports (line_of C.own_line refusal.now)
        (see E.contents E.faults errs.old errs.new) }
    ensures monotone { E.faults errs.old ≤ E.faults errs.new }
{
    let line = refusal.line();
    let _ = write_all(errs, line.as_str().as_bytes());
}

/// Ends a command that was done or refused: a refusal is reported, and the status is answered.
pub fn finish<C: Cause, E: Sink>(errs: &mut E, outcome: Result<(), Refusal<C>>) -> Status
    ensures ended { EndsAs C.own_status C.own_line outcome
        (see E.contents E.faults errs.old errs.new) result }
    ensures monotone { E.faults errs.old ≤ E.faults errs.new }
{
    match outcome {
        Ok(()) => 0,
        Err(refusal) => {
            report(errs, &refusal);
            refusal.status()
        }
    }
}
