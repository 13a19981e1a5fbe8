//! Contexts of a played book are parked.

ghost use Rattle.std.specs.Prelude.{◌≡◌, ◌+◌, ◌-◌, ◌<◌, ◌≤◌, ◌++◌, ◌∷◌, [], true, Some, IfOk};
ghost use Rattle.std.specs.Prelude.{IfSome, IsTrue, length, map};
ghost use Rattle.journal_model.specs.State.{numbered};
ghost use Rattle.journal_model.specs.Legal.{may_answer};
ghost use Rattle.journal_model.specs.Reads as reads;
ghost use Rattle.book_model.specs.Kept.{givens};
ghost use Rattle.book_model.specs.Steps.{MayPark};
ghost use Rattle.book_core_tests.specs.Placed.{IsPlaced};
ghost use Rattle.book_core_tests.specs.Told.{parked_of};

use crate::answers::{answered_by, given_to};
use crate::played::Played;
use crate::waiter::Waiter;
use journal_model::{ContextState, Event};
use machine_model::Memory;
use space_api::{Given, Store};
use std::alloc::Global;

/// The most requests that a played context serves.
const MOST_SERVED: usize = 65_536;

/// How a context that answered is parked.
#[derive(Drop)]
pub enum Rested<T: Store> {
    /// It is idle. The context with that number made room, where one had to, and was released.
    Parked { went: Option<u32> },
    /// It may not be parked, and stays as it was.
    Not(Waiter<T::Space>),
}

/// Whether the context has this function and stands at this layer.
fn is_placed(context: ContextState, function: u16, layer: Option<u16>) -> bool
    ensures { IsTrue result → (function ≡ context.function) × (layer ≡ context.layer) }
{
    context.function == function && context.layer == layer
}

/// How many requests were served before the last of these; none where there is none, and where they
/// are as many as a context may serve.
fn earlier(served: &[Given], uses: u32) -> Option<u32>
    ensures before { IfSome result (λ u. u ≡ length served.now - 1) }
    ensures usable { IfSome result (λ u. length served.now - 1 + 1 < uses) }
{
    let count = served.len();
    if count == 0 || count >= uses as usize {
        return None;
    }
    Some(count as u32 - 1)
}

/// Whether these are more than were served before, and not too many.
fn is_longer(before: &[Given], served: &[Given]) -> bool
    ensures { IsTrue result → (length before.now < length served.now)
        × (length served.now ≤ 65536) }
{
    before.len() < served.len() && served.len() <= MOST_SERVED
}

/// The waiter, stripped, with these requests served, and what it was stripped of.
fn strip<T: Store>(
    store: &T,
    waiter: Waiter<T::Space>,
    served: Vec<Given>,
) -> (Waiter<T::Space>, T::Spares)
    requires longer { length waiter.served.items < length served.items }
    requires few { length served.items ≤ 65536 }
    ensures { parked_of result.0.id result.0.function result.0.layer result.0.served.items
        (T.Space.spares result.0.space)
        ≡ parked_of waiter.id waiter.function waiter.layer served.items 0 }
{
    let mut space = waiter.space;
    let spares = store.strip(&mut space);
    let waiter = Waiter {
        id: waiter.id,
        function: waiter.function,
        layer: waiter.layer,
        served,
        space,
    };
    (waiter, spares)
}

impl<T: Store> Played<T> {
    /// What the context was given by the requests that it served, and behind them by this one; none
    /// where one wasn't started. The only error is want of memory, also in the calls below.
    fn served_with(&self, alloc: Global, c: u32, i: u32) -> Result<Option<Vec<Given>>, Memory>
        ensures { IfOk result (λ found. IfSome found (λ list. map Some list.items
            ≡ givens self.now.book.started (reads.served self.now.book.state c ++ i ∷ []))) }
    {
        self.book.is_sound();
        let mut numbers = answered_by(alloc, c, self.book.events())?;
        if numbers.push(i).is_err() {
            return Err(Memory);
        }
        given_to(alloc, self.book.started(), &numbers)
    }

    /// Whether the journal has this function and this layer of the context.
    fn has_place(&self, c: u32, function: u16, layer: Option<u16>) -> Result<bool, Memory>
        ensures { IfOk result (λ is. is ≡ true →
            IsPlaced (numbered self.now.book.state.contexts c) function layer) }
    {
        let journal = self.journal()?;
        match journal.context(c) {
            None => Ok(false),
            Some(context) => Ok(is_placed(context, function, layer)),
        }
    }

    /// Whether the context may answer the request, after so many others.
    fn answers(&self, i: u32, c: u32, u: u32) -> Result<bool, Memory>
        ensures { IfOk result (λ may. may ≡ true →
            may_answer self.now.book.state i c u ≡ true) }
    {
        self.may_note(Event::Answer { i, c, u })
    }

    /// Whether the context may answer the last of these requests, and then be parked.
    fn may_rest(&self, i: u32, c: u32, served: &[Given]) -> Result<bool, Memory>
        ensures answers { IfOk result (λ may. may ≡ true →
            may_answer self.now.book.state i c (length served.now - 1) ≡ true) }
        ensures room { IfOk result (λ may. may ≡ true → 1 ≤ self.now.book.sizes.idle) }
        ensures usable { IfOk result (λ may. may ≡ true →
            length served.now - 1 + 1 < self.now.book.sizes.uses) }
    {
        let sizes = self.book.sizes();
        if sizes.idle < 1 {
            return Ok(false);
        }
        match earlier(served, sizes.uses) {
            None => Ok(false),
            Some(u) => self.answers(i, c, u),
        }
    }

    /// Whether the waiter, with these requests served, may answer the last of them and be parked.
    fn may_park(&self, i: u32, waiter: &Waiter<T::Space>, served: &[Given]) -> Result<bool, Memory>
        requires { map Some served.now ≡ givens self.now.book.started
            (reads.served self.now.book.state waiter.now.id ++ i ∷ []) }
        ensures may { IfOk result (λ may. may ≡ true → MayPark i (parked_of waiter.now.id
            waiter.now.function waiter.now.layer served.now 0) None self.now.book) }
        ensures longer { IfOk result (λ may. may ≡ true →
            length waiter.now.served.items < length served.now) }
        ensures few { IfOk result (λ may. may ≡ true → length served.now ≤ 65536) }
    {
        let longer = is_longer(&waiter.served, served);
        if !longer {
            return Ok(false);
        }
        let placed = self.has_place(waiter.id, waiter.function, waiter.layer)?;
        if !placed {
            return Ok(false);
        }
        self.may_rest(i, waiter.id, served)
    }

    /// The waiter, stripped, is parked; the one that made room, where one had to.
    fn rest(
        &mut self,
        store: &T,
        i: u32,
        waiter: Waiter<T::Space>,
        spares: T::Spares,
    ) -> Result<Option<Waiter<T::Space>>, Memory>
        requires { MayPark i (parked_of waiter.id waiter.function waiter.layer
            waiter.served.items (T.Space.spares waiter.space)) None self.old.book }
    {
        match self.book.park(store, i, waiter, spares) {
            Ok(handed) => Ok(handed),
            Err(_) => Err(Memory),
        }
    }

    /// What a context held comes back.
    fn give_up(&mut self, store: &T, waiter: Waiter<T::Space>) -> Result<(), Memory> {
        let spares = store.release_space(waiter.space);
        self.returned(store, spares)
    }

    /// A context that answered the request is parked. It may not be where the journal has it
    /// otherwise, where it was used as often as it may be, and where there is no room for idle
    /// ones; nor where it has served as many already as were answered with this one, or more than
    /// `MOST_SERVED`.
    pub fn park(
        &mut self,
        alloc: Global,
        store: &T,
        i: u32,
        waiter: Waiter<T::Space>,
    ) -> Result<Rested<T>, Memory> {
        let Some(served) = self.served_with(alloc, waiter.id, i)? else {
            return Ok(Rested::Not(waiter));
        };
        let may = self.may_park(i, &waiter, &served)?;
        if !may {
            return Ok(Rested::Not(waiter));
        }
        let (waiter, spares) = strip(store, waiter, served);
        let Some(other) = self.rest(store, i, waiter, spares)? else {
            return Ok(Rested::Parked { went: None });
        };
        let went = Some(other.id);
        self.give_up(store, other)?;
        Ok(Rested::Parked { went })
    }
}
