//! A book is closed.

ghost use Rattle.std.specs.Prelude.{◌≡◌};
ghost use Rattle.plan_book.specs.Stakes.{IsLoose, stakes_in, stakes_of};

use book_core::{Book, Closed, Grounds};
use space_api::{Kept, Parked, Stock};

/// All that the book held, also where it was stopped: none of it is pinned, and it has the stakes
/// that the book had. It takes no memory.
pub fn close_book<C: Parked, L: Kept, H: Stock, G: Grounds<C, L>>(
    book: Book<C, L, H, G>,
) -> Closed<C, L, H>
    ensures loose { IsLoose C.pin L.pin result }
    ensures stakes { stakes_of C.stake L.stake result ≡ stakes_in C.stake L.stake book }
    ensures shelf { result.shelf ≡ book.shelf }
    ensures events { result.events.items ≡ book.events }
    ensures started { result.started.items ≡ book.started }
{
    book.is_sound();
    book.close()
}
