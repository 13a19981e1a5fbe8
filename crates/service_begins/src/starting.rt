//! Requests are started.

ghost use Rattle.std.specs.Prelude.{◌≡◌, ◌+◌, true, length, IfOk, OnErr};
ghost use Rattle.journal_model.specs.Legal.{may_start};
ghost use Rattle.request_service.specs.Starting.{Starts};

use book_core::{Book, Grounds};
use book_log::Started;
use machine_model::Memory;
use request_service::Unserved;
use space_api::{Kept, Parked, Store};
use std::alloc::Global;

/// The next request is started, and waits. The only error is want of memory, and stops the book.
pub fn start_request<T: Store, C: Parked, L: Kept, G: Grounds<C, L>>(
    alloc: Global,
    store: &T,
    book: &mut Book<C, L, T::Shelf, G>,
    one: &Started,
) -> Result<Unserved, Memory>
    requires may { may_start book.old.sizes book.old.state (length book.old.started + 1)
        one.now.function one.now.given.clock ≡ true }
    ensures starts { IfOk result (λ request. Starts one.now request book.old book.new) }
    ensures stopped { OnErr result (book.new.stopped ≡ true) }
{
    match book.start(alloc, one) {
        Ok(i) => Ok(Unserved {
            i,
            function: one.function,
        }),
        Err(Memory) => {
            book.abandon(store, None);
            Err(Memory)
        }
    }
}
