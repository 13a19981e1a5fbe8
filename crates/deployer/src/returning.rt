//! What nothing reaches any more comes back to a book.

ghost use Rattle.std.specs.Prelude.{◌≡◌, true, false, [], OnOk, OnErr};
ghost use Rattle.service_model.specs.Going.{WentBy};

use book_core::{Book, Grounds};
use machine_model::Memory;
use space_api::{Kept, Parked, Store};

/// Spares come back to the shelf; over copied pages they are none, and no event tells of it. The
/// only error is want of memory, and stops the book.
pub fn give<T: Store, C: Parked, L: Kept, G: Grounds<C, L>>(
    store: &T,
    book: &mut Book<C, L, T::Shelf, G>,
    spares: T::Spares,
) -> Result<(), Memory>
    requires copied { T.Space.takes_frames ≡ false }
    requires root { book.old.sizes.root ≡ 0 }
    ensures went { OnOk result (WentBy [] book.old book.new) }
    ensures stopped { OnErr result (book.new.stopped ≡ true) }
{
    match book.returned(store, spares) {
        Ok(()) => Ok(()),
        Err(spares) => {
            book.abandon(store, Some(spares));
            Err(Memory)
        }
    }
}
