//! A book is stopped, and closed.

ghost use Rattle.std.specs.Prelude.{◌≡◌, true, map, MatchOption};
ghost use Rattle.space_api.specs.Holding.{with_returned};
ghost use Rattle.slot_lists.specs.Held.{AreUnder};

use crate::book::Book;
use crate::grounds::Grounds;
use book_log::Started;
use journal_model::Event;
use slab::Slab;
use space_api::{Kept, Parked, Stock, Store};

/// What a book held when it was closed.
#[derive(Drop)]
pub struct Closed<C, L, H> {
    /// The idle contexts, each under a slot.
    pub contexts: Slab<C>,
    /// The kept layers, each under a slot.
    pub layers: Slab<L>,
    /// The images, in order.
    pub images: Vec<L>,
    /// The free frames.
    pub shelf: H,
    /// The journal.
    pub events: Vec<Event>,
    /// The requests that were started, in the order of their numbers.
    pub started: Vec<Started>,
}

impl<C: Parked, L: Kept, H: Stock, G: Grounds<C, L>> Book<C, L, H, G> {
    /// The book is stopped, for good: what is in hand comes to the shelf, and no event says so. It
    /// takes no memory, and may be called again for what else is in hand.
    pub fn abandon<T: Store<Shelf = H>>(&mut self, store: &T, spares: Option<T::Spares>)
        ensures stopped { self.new ≡ record self.old {
          shelf = self.new.shelf;
          stopped = true;
        } }
        ensures shelf { MatchOption spares (self.new.shelf ≡ self.old.shelf)
            (λ spares. H.stocked self.new.shelf ≡ with_returned (T.number spares)
            (T.Spares.stake spares) (H.stocked self.old.shelf)) }
    {
        self.stopped = true;
        if let Some(spares) = spares {
            store.give_back(&mut self.shelf, spares);
        }
    }

    /// All that the book holds. It takes no memory.
    pub fn close(self) -> Closed<C, L, H>
        ensures contexts { AreUnder (map (λ e. e.1.context) self.idle) result.contexts }
        ensures layers { AreUnder (map (λ e. e.1) self.kept) result.layers }
        ensures images { result.images.items ≡ self.images }
        ensures shelf { result.shelf ≡ self.shelf }
        ensures events { result.events.items ≡ self.events }
        ensures started { result.started.items ≡ self.started }
    {
        let (events, started) = self.log.into_parts();
        Closed {
            contexts: self.idle.into_slots(),
            layers: self.kept.into_slots(),
            images: self.images,
            shelf: self.shelf,
            events,
            started,
        }
    }
}
