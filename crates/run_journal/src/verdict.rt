//! Whether a journal is legal.

ghost use Rattle.std.specs.Prelude.{◌≡◌, IfOk};
ghost use Rattle.journal_model.specs.Legal as legal;

use crate::journal::Journal;
use journal_model::{Event, Judged, Sizes};
use machine_model::Memory;
use std::alloc::Global;

/// Judges a journal: its totals where it is legal; else the first event, counted from 0, that may
/// not stand where it does, or the number of events where one is still owed at the end. `Memory`
/// comes where memory ran out.
pub fn judge(alloc: Global, sizes: &Sizes, events: &[Event]) -> Result<Judged, Memory>
    ensures { IfOk result (λ judged. judged ≡ legal.judged sizes.now events.now) }
{
    let mut journal = Journal::open(alloc, sizes.copy(alloc)?);
    for (at, event) in events.iter().enumerate() {
        if !journal.step(*event)? {
            return Ok(Judged::Broken { at });
        }
    }
    if journal.owes_nothing() {
        Ok(Judged::Legal(journal.totals()))
    } else {
        Ok(Judged::Broken { at: events.len() })
    }
}
