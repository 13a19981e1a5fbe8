//! Requests and contexts end.

ghost use Rattle.std.specs.Prelude.{◌≡◌, ◌∷◌, [], true, IsErr, OnOk, OnErr, IfSome, IsSome};
ghost use Rattle.journal_model.specs.Legal.{after_all, is_open};
ghost use Rattle.journal_model.specs.declared.event.Event.TheVariants.{Want};
ghost use Rattle.book_model.specs.Steps.{Appends, ended};

use crate::book::Book;
use crate::grounds::Grounds;
use journal_model::Event;
use machine_model::Memory;
use space_api::{Kept, Parked, Stock};

impl<C: Parked, L: Kept, H: Stock, G: Grounds<C, L>> Book<C, L, H, G> {
    /// `want i`: a request found no memory. The only error is want of memory, which always comes of
    /// a stopped book, and then nothing changed.
    pub fn want(&mut self, i: u32) -> Result<(), Memory>
        requires open { is_open self.old.state i ≡ true }
        ensures wanted { OnOk result (Appends (Want i ∷ []) self.old self.new) }
        ensures memory { OnErr result (self.new ≡ self.old) }
        ensures stopped { self.old.stopped ≡ true → IsErr result }
    {
        if self.stopped {
            return Err(Memory);
        }
        self.log.note(Event::Want { i })
    }

    /// `answer i c u`, where the context answered, after u others, and then `end c`. The only error
    /// is want of memory, which always comes of a stopped book, and then nothing changed.
    pub fn end(&mut self, i: u32, c: u32, answered: Option<u32>) -> Result<(), Memory>
        requires may { IsSome (after_all self.old.sizes self.old.state (ended i c answered)) }
        ensures over { OnOk result (Appends (ended i c answered) self.old self.new) }
        ensures memory { OnErr result (self.new ≡ self.old) }
        ensures stopped { self.old.stopped ≡ true → IsErr result }
    {
        if self.stopped {
            return Err(Memory);
        }
        match answered {
            None => self.log.note(Event::End { c }),
            Some(u) => self
                .log
                .note_both(Event::Answer { i, c, u }, Event::End { c }),
        }
    }
}
