//! A journal that is read event by event.

ghost use Rattle.std.specs.Prelude.{◌≡◌, ◌↔◌, ◌<◌, ◌^◌, length, true};
ghost use Rattle.journal_model.specs.Legal as legal;
ghost use Rattle.journal_model.specs.State as model;
ghost use Rattle.run_journal.specs.Steps.{Steps};

use crate::current::Current;
use crate::whole::{all_closed, none_serves};
use journal_model::{ContextState, Event, RequestState, Sizes, Totals};
use machine_model::Memory;
use std::alloc::Global;
use std::marker::Model;

/// A journal so far: its sizes, and where requests, contexts, layers and frames stand after the
/// events that were read.
#[derive(Drop)]
pub struct Journal {
    sizes: Sizes,
    current: Current,
}

impl Model for Journal {
    ghost use Rattle.journal_model.specs.State.{Replay};

    ghost Value = { Replay };

    ghost view = { λ j. record { sizes = j.sizes; state = j.current } };
}

impl Journal {
    /// A journal of no events.
    pub fn open(alloc: Global, sizes: Sizes) -> Journal
        ensures { result ≡ record { sizes = sizes; state = legal.at_first sizes } }
    {
        let current = Current::new(alloc, sizes.frames);
        Journal { sizes, current }
    }

    /// Reads an event: true where it may stand there. Where it may not, and where memory ran out,
    /// the journal is as it was.
    pub fn step(&mut self, event: Event) -> Result<bool, Memory>
        ensures state { Steps result self.old.state self.new.state
            (legal.after self.old.sizes self.old.state event) }
        ensures sizes { self.new.sizes ≡ self.old.sizes }
    {
        self.current.step(&self.sizes, event)
    }

    /// The sizes.
    pub fn sizes(&self) -> &Sizes
        ensures { result.now ≡ self.now.sizes }
    {
        &self.sizes
    }

    /// The requests that were started, in the order of their numbers, fewer than 2^32.
    pub fn requests(&self) -> &[RequestState]
        ensures items { result.now ≡ self.now.state.requests }
        ensures few { length result.now < 2 ^ 32 }
    {
        self.current.requests()
    }

    /// The contexts that were drawn, in the order of their numbers.
    pub fn contexts(&self) -> &[ContextState]
        ensures { result.now ≡ self.now.state.contexts }
    {
        self.current.contexts()
    }

    /// Request `i`, counted from 1; none where it wasn't started.
    pub fn request(&self, i: u32) -> Option<RequestState>
        ensures { result ≡ model.numbered self.now.state.requests i }
    {
        self.current.request(i)
    }

    /// Context `c`, counted from 1; none where it wasn't drawn.
    pub fn context(&self, c: u32) -> Option<ContextState>
        ensures { result ≡ model.numbered self.now.state.contexts c }
    {
        self.current.context(c)
    }

    /// How many frames are free.
    pub fn free(&self) -> u32
        ensures { result ≡ self.now.state.free }
    {
        self.current.free()
    }

    /// The numbers of the idle contexts, most recent first.
    pub fn idle(&self) -> &[u32]
        ensures { result.now ≡ self.now.state.idle }
    {
        self.current.idle().as_slice()
    }

    /// The numbers of the kept layers, most recent first.
    pub fn kept(&self) -> &[u32]
        ensures { result.now ≡ self.now.state.kept }
    {
        self.current.kept().as_slice()
    }

    /// How many requests were started, how many of them each way, and how many frames are free.
    pub fn totals(&self) -> Totals
        ensures { result ≡ legal.totals self.now.state }
    {
        self.current.totals()
    }

    /// Whether any event may stand next, so that the journal is legal if it ends here.
    pub fn owes_nothing(&self) -> bool
        ensures { result ≡ legal.owes_nothing self.now.state.owed }
    {
        self.current.owes_nothing()
    }

    /// Whether each started request was answered, refused or wanted, and no context serves one.
    pub fn is_whole(&self) -> bool
        ensures { (result ≡ true) ↔ legal.IsWhole self.now.state }
    {
        all_closed(self.current.requests()) && none_serves(self.current.contexts())
    }
}
