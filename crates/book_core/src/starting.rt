//! Requests are started.

ghost use Rattle.std.specs.Prelude.{◌≡◌, ◌+◌, ◌++◌, ◌∷◌, [], true, length};
ghost use Rattle.std.specs.Prelude.{IsErr, IfOk, OnOk, OnErr};
ghost use Rattle.journal_model.specs.Legal.{may_start, after_start};
ghost use Rattle.journal_model.specs.declared.event.Event.TheVariants.{Start};

use crate::book::Book;
use crate::grounds::Grounds;
use book_log::Started;
use machine_model::Memory;
use space_api::{Kept, Parked, Stock};
use std::alloc::Global;

impl<C: Parked, L: Kept, H: Stock, G: Grounds<C, L>> Book<C, L, H, G> {
    /// `start i f t`: the next request, of which a copy is kept. Answers its number. The only error
    /// is want of memory, which always comes of a stopped book, and then nothing changed.
    pub fn start(&mut self, alloc: Global, one: &Started) -> Result<u32, Memory>
        requires may { may_start self.old.sizes self.old.state
            (length self.old.started + 1) one.now.function one.now.given.clock ≡ true }
        ensures number { IfOk result (λ i. i ≡ length self.old.started + 1) }
        ensures started { OnOk result (self.new ≡ record self.old {
          events = self.old.events ++ Start (length self.old.started + 1) one.now.function
              one.now.given.clock ∷ [];
          state = after_start self.old.state one.now.function one.now.given.clock;
          started = self.old.started ++ one.now ∷ [];
        }) }
        ensures memory { OnErr result (self.new ≡ self.old) }
        ensures stopped { self.old.stopped ≡ true → IsErr result }
    {
        if self.stopped {
            return Err(Memory);
        }
        self.log.start(alloc, one)
    }
}
