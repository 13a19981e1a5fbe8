//! What a journal comes to, and one event after another.

ghost use Rattle.std.specs.Prelude.{◌≡◌, ◌^◌, ◌<◌, length, count_by};
ghost use Rattle.journal_model.specs.Legal as legal;
ghost use Rattle.journal_model.specs.declared.state.RequestState.{RequestState};
ghost use Rattle.run_journal.specs.Steps.{Steps};

use crate::current::Current;
use journal_model::{Event, How, RequestState, Sizes, Totals};
use machine_model::Memory;

fn is_cold(how: How) -> bool
    ensures { result ≡ legal.is_cold how }
{
    match how {
        How::Cold => true,
        How::Warm | How::Hot | How::None => false,
    }
}

fn is_warm(how: How) -> bool
    ensures { result ≡ legal.is_warm how }
{
    match how {
        How::Warm => true,
        How::Cold | How::Hot | How::None => false,
    }
}

fn is_hot(how: How) -> bool
    ensures { result ≡ legal.is_hot how }
{
    match how {
        How::Hot => true,
        How::Cold | How::Warm | How::None => false,
    }
}

fn is_without(how: How) -> bool
    ensures { result ≡ legal.is_without how }
{
    match how {
        How::None => true,
        How::Cold | How::Warm | How::Hot => false,
    }
}

/// How many requests had a cold start.
fn cold(requests: &[RequestState]) -> u32
    requires { length requests.now < 2 ^ 32 }
    ensures { result ≡ count_by (λ (r : RequestState). legal.is_cold r.how) requests.now }
{
    requests.iter().filter(|r| is_cold(r.how)).count() as u32
}

/// How many requests had a warm start.
fn warm(requests: &[RequestState]) -> u32
    requires { length requests.now < 2 ^ 32 }
    ensures { result ≡ count_by (λ (r : RequestState). legal.is_warm r.how) requests.now }
{
    requests.iter().filter(|r| is_warm(r.how)).count() as u32
}

/// How many requests took an idle context.
fn hot(requests: &[RequestState]) -> u32
    requires { length requests.now < 2 ^ 32 }
    ensures { result ≡ count_by (λ (r : RequestState). legal.is_hot r.how) requests.now }
{
    requests.iter().filter(|r| is_hot(r.how)).count() as u32
}

/// How many requests had no context.
fn without(requests: &[RequestState]) -> u32
    requires { length requests.now < 2 ^ 32 }
    ensures { result ≡ count_by (λ (r : RequestState). legal.is_without r.how) requests.now }
{
    requests.iter().filter(|r| is_without(r.how)).count() as u32
}

impl Current {
    /// How many requests were started, how many of them each way, and how many frames are free.
    #[tactic(auto, unfolding(journal_model::specs::Legal::totals))]
    pub fn totals(&self) -> Totals
        ensures { result ≡ legal.totals self.now }
    {
        let requests = self.requests();
        Totals {
            requests: requests.len() as u32,
            cold: cold(requests),
            warm: warm(requests),
            hot: hot(requests),
            none: without(requests),
            free: self.free(),
        }
    }

    /// Goes over an event: true where it may stand there.
    pub fn step(&mut self, sizes: &Sizes, event: Event) -> Result<bool, Memory>
        ensures { Steps result self.old self.new (legal.after sizes.now self.old event) }
    {
        match event {
            Event::Start { i, f, t } => self.start(sizes, i, f, t),
            Event::Take { c, i } => Ok(self.take(sizes, c, i)),
            Event::Deploy { c, k, i, n } => self.deploy(sizes, c, k, i, n),
            Event::Refill { c, h, n } => Ok(self.refill(sizes, c, h, n)),
            Event::Built { c, k, d } => Ok(self.built(sizes, c, k, d)),
            Event::Keep { k } => self.keep(sizes, k),
            Event::Dup { k } => Ok(self.dup(sizes, k)),
            Event::Drop { k } => Ok(self.drop_layer(sizes, k)),
            Event::Evict { c } => Ok(self.evict(sizes, c)),
            Event::Park { c } => self.park(sizes, c),
            Event::End { c } => Ok(self.end(sizes, c)),
            Event::Back { n } => Ok(self.back(sizes, n)),
            Event::Refuse { i } => Ok(self.refuse(sizes, i)),
            Event::Want { i } => Ok(self.want(sizes, i)),
            Event::Answer { i, c, u } => Ok(self.answer(sizes, i, c, u)),
        }
    }
}
