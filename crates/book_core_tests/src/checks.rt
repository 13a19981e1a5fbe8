//! Whether events may stand next in a played book.

ghost use Rattle.std.specs.Prelude.{◌≡◌, ◌∷◌, [], true, Some, IfOk, IfSome, IsSome};
ghost use Rattle.journal_model.specs.Legal.{after, after_all, is_waiting, is_waiting_one};
ghost use Rattle.journal_model.specs.Legal.{request_function};
ghost use Rattle.book_model.specs.Steps.{ended};

use crate::played::Played;
use crate::replay::replay;
use journal_model::{Event, RequestState, Standing};
use machine_model::Memory;
use run_journal::Journal;
use space_api::Store;

/// Whether the event may stand next. The only error is want of memory.
fn may_stand(journal: Journal, event: Event) -> Result<bool, Memory>
    ensures { IfOk result (λ may. may ≡ true → IsSome (after journal.sizes journal.state event)) }
{
    let mut journal = journal;
    journal.step(event)
}

/// Whether the two events may stand next, one after the other. The only error is want of memory.
fn may_both(journal: Journal, first: Event, second: Event) -> Result<bool, Memory>
    ensures { IfOk result (λ may. may ≡ true → IsSome (after_all journal.sizes journal.state
        (first ∷ second ∷ []))) }
{
    let mut journal = journal;
    let may = journal.step(first)?;
    if !may {
        return Ok(false);
    }
    journal.step(second)
}

/// Whether the request waits.
fn waits(request: RequestState) -> bool
    ensures { result ≡ true → is_waiting_one (Some request) ≡ true }
{
    match request.standing {
        Standing::Open => request.context.is_none(),
        Standing::Answered => false,
        Standing::Refused => false,
        Standing::Wanted => false,
    }
}

impl<T: Store> Played<T> {
    /// The journal of the book's events. The only error is want of memory.
    pub(crate) fn journal(&self) -> Result<Journal, Memory>
        ensures sizes { IfOk result (λ journal. journal.sizes ≡ self.now.book.sizes) }
        ensures state { IfOk result (λ journal. journal.state ≡ self.now.book.state) }
    {
        self.book.is_sound();
        replay(self.alloc, self.book.sizes(), self.book.events())
    }

    /// Whether the event may stand next. The only error is want of memory.
    pub(crate) fn may_note(&self, event: Event) -> Result<bool, Memory>
        ensures { IfOk result (λ may. may ≡ true →
            IsSome (after self.now.book.sizes self.now.book.state event)) }
    {
        let journal = self.journal()?;
        may_stand(journal, event)
    }

    /// Whether a context may end so. The only error is want of memory.
    pub(crate) fn may_end(&self, i: u32, c: u32, answered: Option<u32>) -> Result<bool, Memory>
        ensures { IfOk result (λ may. may ≡ true →
            IsSome (after_all self.now.book.sizes self.now.book.state (ended i c answered))) }
    {
        let journal = self.journal()?;
        match answered {
            None => may_stand(journal, Event::End { c }),
            Some(u) => may_both(journal, Event::Answer { i, c, u }, Event::End { c }),
        }
    }

    /// The function of a request that waits; none where it isn't one. The only error is want of
    /// memory.
    pub(crate) fn waiting_function(&self, i: u32) -> Result<Option<u16>, Memory>
        ensures waits { IfOk result (λ found. IfSome found (λ f.
            is_waiting self.now.book.state i ≡ true)) }
        ensures function { IfOk result (λ found. IfSome found (λ f.
            request_function self.now.book.state i ≡ f)) }
    {
        let journal = self.journal()?;
        let Some(request) = journal.request(i) else {
            return Ok(None);
        };
        let is = waits(request);
        if !is {
            return Ok(None);
        }
        Ok(Some(request.function))
    }
}
