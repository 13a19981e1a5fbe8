//! What the events of a book lead to.

ghost use Rattle.std.specs.Prelude.{◌≡◌, Some, IfOk, IsSome};
ghost use Rattle.journal_model.specs.Legal.{after_all, at_first};

use journal_model::{Event, Sizes};
use machine_model::Memory;
use run_journal::Journal;
use std::alloc::Global;

/// The journal of these events, which are legal. The only error is want of memory.
pub(crate) fn replay(alloc: Global, sizes: &Sizes, events: &[Event]) -> Result<Journal, Memory>
    requires { IsSome (after_all sizes.now (at_first sizes.now) events.now) }
    ensures sizes { IfOk result (λ journal. journal.sizes ≡ sizes.now) }
    ensures state { IfOk result (λ journal.
        after_all sizes.now (at_first sizes.now) events.now ≡ Some journal.state) }
{
    let mut journal = Journal::open(alloc, sizes.copy(alloc)?);
    'events: for event in events {
        let may = journal.step(*event)?;
        if !may {
            unreachable!()
        }
    }
    Ok(journal)
}
