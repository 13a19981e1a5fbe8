//! Room for the longest line of a batch.

ghost use Rattle.std.specs.Prelude.{◌≤◌, IsOk, OnOk, vec_capacity};
ghost use Rattle.batch_output.specs.Lines.{AllFit};
ghost use Rattle.batch_output.specs.Outcomes.{IsRoomFor};

use crate::line::{Line, fill};
use crate::outcome::Outcome;
use machine_model::Memory;
use std::alloc::Global;

/// Makes room for each of the lines with its end. `Memory` where there is too little of it, which
/// isn't so where the bytes have the room already.
fn make_room_for<L: Line>(alloc: Global, items: &[L], line: &mut Vec<u8>) -> Result<(), Memory>
    ensures fits { OnOk result (AllFit L.spelled (vec_capacity line.new) items.now) }
    ensures room { AllFit L.spelled (vec_capacity line.old) items.now → IsOk result }
    ensures capacity { vec_capacity line.old ≤ vec_capacity line.new }
{
    'items: for item in items {
        fill(alloc, item, line)?;
    }
    Ok(())
}

/// Makes room for each line of the batch with its end, by printing it: what `line` holds is lost,
/// and it may hold any of the lines afterwards. Its capacity never shrinks.
///
/// The one error is `Memory`, where there is too little of it. That isn't so where `line` has the
/// room already.
pub fn make_room(alloc: Global, outcome: &Outcome, line: &mut Vec<u8>) -> Result<(), Memory>
    ensures fits { OnOk result (IsRoomFor (vec_capacity line.new) outcome.now) }
    ensures room { IsRoomFor (vec_capacity line.old) outcome.now → IsOk result }
    ensures capacity { vec_capacity line.old ≤ vec_capacity line.new }
{
    make_room_for(alloc, &outcome.answers, line)?;
    make_room_for(alloc, &outcome.events, line)?;
    fill(alloc, &outcome.totals, line)
}
