//! Frames come back.

ghost use Rattle.std.specs.Prelude.{◌≡◌, true, IfErr, OnOk, OnErr, IsErr};
ghost use Rattle.space_api.specs.Holding.{if_taken};
ghost use Rattle.book_model.specs.Steps.{Returns};

use crate::book::Book;
use crate::grounds::Grounds;
use journal_model::Event;
use space_api::{Kept, Parked, Stock, Store};

impl<C: Parked, L: Kept, H: Stock, G: Grounds<C, L>> Book<C, L, H, G> {
    /// `back n`: spares come back to the shelf; no event where they are none. The only error is
    /// want of memory, which always comes of a stopped book: it hands them back, and nothing
    /// changed.
    pub fn returned<T: Store<Shelf = H>>(
        &mut self,
        store: &T,
        spares: T::Spares,
    ) -> Result<(), T::Spares>
        requires root { self.old.sizes.root ≡ if_taken T.Space.takes_frames 1 }
        ensures returned { OnOk result (Returns (T.number spares) (T.Spares.stake spares)
            H.stocked self.old self.new) }
        ensures back { IfErr result (λ given. given ≡ spares) }
        ensures memory { OnErr result (self.new ≡ self.old) }
        ensures stopped { self.old.stopped ≡ true → IsErr result }
    {
        if self.stopped || self.log.reserve(1).is_err() {
            return Err(spares);
        }
        let n = store.count(&spares);
        store.give_back(&mut self.shelf, spares);
        if n == 0 {
            return Ok(());
        }
        self.log.append(Event::Back { n });
        Ok(())
    }
}
