//! Idle contexts are taken.

ghost use Rattle.std.specs.Prelude.{◌≡◌, true, IsErr, IfOk, IfSome, OnErr, MatchOption};
ghost use Rattle.journal_model.specs.Legal.{is_waiting, request_function};
ghost use Rattle.book_model.specs.Kept.{IsWaiting};
ghost use Rattle.book_model.specs.Steps.{FindsNone, Takes};

use crate::book::Book;
use crate::grounds::Grounds;
use journal_model::Event;
use machine_model::Memory;
use space_api::{Kept, Parked, Stock};

impl<C: Parked, L: Kept, H: Stock, G: Grounds<C, L>> Book<C, L, H, G> {
    /// `take c i`: the most recently parked context of the request's function, which serves it from
    /// now on. None, and no event, exactly where there is none. The only error is want of memory,
    /// which always comes of a stopped book, and then nothing changed.
    pub fn take_idle(&mut self, i: u32, f: u16) -> Result<Option<C>, Memory>
        requires waiting { is_waiting self.old.state i ≡ true }
        requires function { request_function self.old.state i ≡ f }
        ensures taken { IfOk result (λ found. MatchOption found (FindsNone i self.old self.new)
            (λ context. Takes i (C.parked context).id context self.old self.new)) }
        ensures told { IfOk result (λ found. IfSome found (λ context. G.is_context context
            × IsWaiting self.old.state self.old.started (C.parked context).id f
            (C.parked context) (C.pin context))) }
        ensures memory { OnErr result (self.new ≡ self.old) }
        ensures stopped { self.old.stopped ≡ true → IsErr result }
    {
        if self.stopped {
            return Err(Memory);
        }
        let Some(c) = self.idle.find(f) else {
            return Ok(None);
        };
        self.log.note(Event::Take { c, i })?;
        Ok(self.idle.take(c))
    }
}
