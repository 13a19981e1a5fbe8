//! Events of requests: they are started, refused, wanted and answered.

ghost use Rattle.std.specs.Prelude.{◌≡◌, ◌+◌, ◌^◌, ◌<◌, true, length};
ghost use Rattle.journal_model.specs.Legal as legal;
ghost use Rattle.journal_model.specs.declared.event.Event.TheVariants.{Start, Refuse, Want};
ghost use Rattle.journal_model.specs.declared.event.Event.TheVariants.{Answer};
ghost use Rattle.run_journal.specs.Steps.{Steps};

use crate::current::Current;
use journal_model::{How, Owed, RequestState, Sizes, Standing};
use machine_model::Memory;

/// Whether the clock may show `t`.
fn is_clock(clock: Option<u64>, t: u64) -> bool
    ensures { result ≡ legal.is_clock clock t }
{
    match clock {
        None => true,
        Some(at) => t == at,
    }
}

impl Current {
    /// Whether request `i` may be started.
    #[tactic(auto, unfolding(journal_model::specs::Legal::may_start))]
    fn may_start(&self, sizes: &Sizes, i: u32, f: u16, t: u64) -> bool
        ensures value { result ≡ legal.may_start sizes.now self.now i f t }
        ensures room { result ≡ true → length self.now.requests + 1 < 2 ^ 32 }
    {
        self.owes_nothing()
            && self.is_next_request(i)
            && i <= sizes.requests
            && (f as usize) < sizes.stacks.len()
            && is_clock(sizes.clock, t)
    }

    /// `start i f t`.
    #[tactic(auto, unfolding(journal_model::specs::Legal::after_start))]
    pub fn start(&mut self, sizes: &Sizes, i: u32, f: u16, t: u64) -> Result<bool, Memory>
        ensures { Steps result self.old self.new
            (legal.after sizes.now self.old (Start i f t)) }
    {
        if !self.may_start(sizes, i, f, t) {
            return Ok(false);
        }
        self.add_request(RequestState {
            function: f,
            clock: t,
            standing: Standing::Open,
            how: How::None,
            context: None,
            used: 0,
            place: None,
        })?;
        Ok(true)
    }

    /// Request `i` stands otherwise, and nothing else changes.
    #[tactic(auto, unfolding(journal_model::specs::Legal::after_standing))]
    fn fail(&mut self, i: u32, standing: Standing)
        ensures { self.new ≡ legal.after_standing self.old i standing }
    {
        let place = self.place_of_given(self.given_to(i));
        self.set_standing(i, standing, place);
    }

    /// Whether request `i` may be refused.
    #[tactic(auto, unfolding(journal_model::specs::Legal::may_refuse))]
    fn may_refuse(&self, i: u32) -> bool
        ensures { result ≡ legal.may_refuse self.now i }
    {
        self.owes_nothing()
            && self.is_open(i)
            && self.free() == 0
            && self.idle().is_empty()
            && self.kept().is_empty()
    }

    /// `refuse i`.
    pub fn refuse(&mut self, sizes: &Sizes, i: u32) -> bool
        ensures { Steps (Ok result) self.old self.new
            (legal.after sizes.now self.old (Refuse i)) }
    {
        if !self.may_refuse(i) {
            return false;
        }
        self.fail(i, Standing::Refused);
        true
    }

    /// Whether request `i` may find no memory.
    #[tactic(auto, unfolding(journal_model::specs::Legal::may_want))]
    fn may_want(&self, i: u32) -> bool
        ensures { result ≡ legal.may_want self.now i }
    {
        self.owes_nothing() && self.is_open(i)
    }

    /// `want i`.
    pub fn want(&mut self, sizes: &Sizes, i: u32) -> bool
        ensures { Steps (Ok result) self.old self.new (legal.after sizes.now self.old (Want i)) }
    {
        if !self.may_want(i) {
            return false;
        }
        self.fail(i, Standing::Wanted);
        true
    }

    /// Whether context `c` may answer request `i`.
    #[tactic(auto, unfolding(journal_model::specs::Legal::may_answer))]
    fn may_answer(&self, i: u32, c: u32, u: u32) -> bool
        ensures { result ≡ legal.may_answer self.now i c u }
    {
        self.owes_nothing() && self.is_open(i) && self.serves(c, i) && self.has_answered(c, u)
    }

    /// What is owed after context `c` answered, `u` requests before this one.
    #[tactic(auto, unfolding(journal_model::specs::Legal::owed_after_answer))]
    fn owed_after_answer(&self, sizes: &Sizes, c: u32, u: u32) -> Owed
        ensures { result ≡ legal.owed_after_answer sizes.now self.now.idle c u }
    {
        if sizes.idle >= 1 && u64::from(u) + 1 < u64::from(sizes.uses) {
            if self.idle().is_full(sizes.idle) {
                Owed::EndOrEvict { c }
            } else {
                Owed::EndOrPark { c }
            }
        } else {
            Owed::End { c }
        }
    }

    /// `answer i c u`.
    #[tactic(auto, unfolding(journal_model::specs::Legal::after_answer))]
    pub fn answer(&mut self, sizes: &Sizes, i: u32, c: u32, u: u32) -> bool
        ensures { Steps (Ok result) self.old self.new
            (legal.after sizes.now self.old (Answer i c u)) }
    {
        if !self.may_answer(i, c, u) {
            return false;
        }
        let owed = self.owed_after_answer(sizes, c, u);
        let place = self.place_of(c);
        self.set_standing(i, Standing::Answered, place);
        self.set_used(c, u64::from(u) + 1);
        self.set_owed(owed);
        true
    }
}
