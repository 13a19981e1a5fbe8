//! The log.

ghost use Rattle.std.specs.Prelude.{◌≡◌, ◌+◌, ◌-◌, ◌^◌, ◌<◌, ◌≤◌, ◌++◌, ◌∷◌, [], true, length};
ghost use Rattle.std.specs.Prelude.{nat_lt, if◌then◌else◌, Some, None, IsSome, IfOk, OnOk, OnErr};
ghost use Rattle.journal_model.specs.Legal.{after, after_all, at_first, may_start, after_start};
ghost use Rattle.journal_model.specs.declared.event.Event.TheVariants.{Start};
ghost use Rattle.book_log.specs.Logged as logged;
ghost use Rattle.book_log.specs.Logged.{IsLogged, starts_none};

use crate::started::Started;
use journal_model::{Event, Sizes};
use machine_model::Memory;
use std::alloc::Global;
use std::marker::Model;

/// The events of a batch so far, and the requests that were started.
#[derive(Drop)]
pub struct Log {
    sizes: Sizes,
    events: Vec<Event>,
    started: Vec<Started>,
    drawn: u32,
}

impl Model for Log {
    ghost use Rattle.std.specs.Prelude.{◌≡◌, ◌-◌, length, vec_capacity};
    ghost use Rattle.book_log.specs.Logged.{Logged, IsLogged, replayed};

    ghost Value = { Logged };

    ghost view = { λ l. record {
      sizes = l.sizes;
      events = l.events.items;
      state = replayed l.sizes l.events.items;
      started = l.started.items;
      room = vec_capacity l.events - length l.events.items;
    } };

    ghost invariant = { λ l.
        IsLogged l.sizes l.events.items (replayed l.sizes l.events.items) l.started.items
        × (l.drawn ≡ length (replayed l.sizes l.events.items).contexts) };
}

/// How many contexts an event draws.
fn drawn_by(event: &Event) -> u32
    ensures { result ≡ (if logged.draws event.now then 1 else 0) }
{
    match event {
        Event::Deploy { .. } => 1,
        Event::Start { .. }
        | Event::Take { .. }
        | Event::Refill { .. }
        | Event::Built { .. }
        | Event::Keep { .. }
        | Event::Dup { .. }
        | Event::Drop { .. }
        | Event::Evict { .. }
        | Event::Park { .. }
        | Event::End { .. }
        | Event::Back { .. }
        | Event::Refuse { .. }
        | Event::Want { .. }
        | Event::Answer { .. } => 0,
    }
}

impl Log {
    /// A log of no events.
    pub fn open(alloc: Global, sizes: Sizes) -> Log
        requires { sizes.requests < 2 ^ 32 }
        ensures sizes { result.sizes ≡ sizes }
        ensures events { result.events ≡ [] }
        ensures state { result.state ≡ at_first sizes }
        ensures started { result.started ≡ [] }
    {
        Log {
            sizes,
            events: Vec::new(alloc),
            started: Vec::new(alloc),
            drawn: 0,
        }
    }

    /// The sizes.
    pub fn sizes(&self) -> &Sizes
        ensures { result.now ≡ self.now.sizes }
    {
        &self.sizes
    }

    /// The events so far, in order.
    pub fn events(&self) -> &[Event]
        ensures { result.now ≡ self.now.events }
    {
        &self.events
    }

    /// The requests that were started, in the order of their numbers.
    pub fn started(&self) -> &[Started]
        ensures { result.now ≡ self.now.started }
    {
        &self.started
    }

    /// The number of the next request; none where all were started.
    pub fn next(&self) -> Option<u32>
        ensures { result ≡ (if nat_lt (length self.now.started) self.now.sizes.requests
            then Some (length self.now.started + 1) else None) }
    {
        let count = self.started.len();
        if count < self.sizes.requests as usize {
            return Some(count as u32 + 1);
        }
        None
    }

    /// How many contexts were drawn.
    pub fn drawn(&self) -> u32
        ensures { result ≡ length self.now.state.contexts }
    {
        self.drawn
    }

    /// Makes room for so many events more. Nothing else changes.
    pub fn reserve(&mut self, count: usize) -> Result<(), Memory>
        ensures room { OnOk result (count ≤ self.new.room) }
        ensures rest { self.new ≡ record self.old { room = self.new.room } }
    {
        match self.events.reserve(count) {
            Ok(()) => Ok(()),
            Err(_) => Err(Memory),
        }
    }

    /// An event more, for which there is room. It starts no request.
    pub fn append(&mut self, event: Event)
        requires room { 0 < self.old.room }
        requires may { IsSome (after self.old.sizes self.old.state event) }
        requires starts_none { starts_none event ≡ true }
        ensures state { after self.old.sizes self.old.state event ≡ Some self.new.state }
        ensures rest { self.new ≡ record self.old {
          events = self.old.events ++ event ∷ [];
          state = self.new.state;
          room = self.old.room - 1;
        } }
    {
        self.drawn += drawn_by(&event);
        self.events.push_reserved(event);
    }

    /// An event more. It starts no request. The only error is want of memory, and then nothing has
    /// changed but the room.
    pub fn note(&mut self, event: Event) -> Result<(), Memory>
        requires may { IsSome (after self.old.sizes self.old.state event) }
        requires starts_none { starts_none event ≡ true }
        ensures state { OnOk result
            (after self.old.sizes self.old.state event ≡ Some self.new.state) }
        ensures rest { OnOk result (self.new ≡ record self.old {
          events = self.old.events ++ event ∷ [];
          state = self.new.state;
          room = self.new.room;
        }) }
        ensures memory { OnErr result (self.new ≡ record self.old { room = self.new.room }) }
    {
        self.reserve(1)?;
        self.append(event);
        Ok(())
    }

    /// Two events more, the second directly after the first. They start no request. The only error
    /// is want of memory, and then nothing has changed but the room.
    pub fn note_both(&mut self, first: Event, second: Event) -> Result<(), Memory>
        requires may { IsSome
            (after_all self.old.sizes self.old.state (first ∷ second ∷ [])) }
        requires first_starts_none { starts_none first ≡ true }
        requires second_starts_none { starts_none second ≡ true }
        ensures state { OnOk result (after_all self.old.sizes self.old.state
            (first ∷ second ∷ []) ≡ Some self.new.state) }
        ensures rest { OnOk result (self.new ≡ record self.old {
          events = self.old.events ++ first ∷ second ∷ [];
          state = self.new.state;
          room = self.new.room;
        }) }
        ensures memory { OnErr result (self.new ≡ record self.old { room = self.new.room }) }
    {
        self.reserve(2)?;
        self.append(first);
        self.append(second);
        Ok(())
    }

    /// Starts a request, of which a copy is kept, and answers its number. After want of memory
    /// nothing has changed but the room.
    pub fn start(&mut self, alloc: Global, one: &Started) -> Result<u32, Memory>
        requires may { may_start self.old.sizes self.old.state
            (length self.old.started + 1) one.now.function one.now.given.clock ≡ true }
        ensures number { IfOk result (λ i. i ≡ length self.old.started + 1) }
        ensures started { OnOk result (self.new ≡ record self.old {
          events = self.old.events ++ Start (length self.old.started + 1) one.now.function
              one.now.given.clock ∷ [];
          state = after_start self.old.state one.now.function one.now.given.clock;
          started = self.old.started ++ one.now ∷ [];
          room = self.new.room;
        }) }
        ensures memory { OnErr result (self.new ≡ record self.old { room = self.new.room }) }
    {
        let copy = one.copy(alloc)?;
        self.reserve(1)?;
        if self.started.reserve(1).is_err() {
            return Err(Memory);
        }
        let i = self.started.len() as u32 + 1;
        self.started.push_reserved(copy);
        self.events.push_reserved(Event::Start {
            i,
            f: one.function,
            t: one.given.clock,
        });
        Ok(i)
    }

    /// The events, and the requests that were started.
    pub fn into_parts(self) -> (Vec<Event>, Vec<Started>)
        ensures events { result.0.items ≡ self.events }
        ensures started { result.1.items ≡ self.started }
    {
        (self.events, self.started)
    }

    /// Hands out what is kept, and does nothing: the events lead to the state, the requests are as
    /// they were started, and no more contexts were drawn than requests started.
    pub fn is_sound(&self)
        ensures logged { IsLogged self.now.sizes self.now.events self.now.state self.now.started }
        ensures few { length self.now.state.contexts ≤ length self.now.started }
    {
        let _drawn = self.drawn;
    }
}
