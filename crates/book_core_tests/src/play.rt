//! The calls of a played book.

ghost use Rattle.std.specs.Prelude.{◌≡◌, IfOk};
ghost use Rattle.space_api.specs.Holding.{if_taken};

use crate::played::Played;
use crate::stored::Stored;
use crate::waiter::Waiter;
use book_core::{Book, Closed, Started};
use journal_model::Event;
use machine_model::{Hart, Memory};
use space_api::Store;
use std::alloc::Global;
use std::marker::Brand;

/// How a request that is to be served is served.
#[derive(Drop)]
pub enum Served<T: Store> {
    /// A context that was idle serves it.
    Hot(Waiter<T::Space>),
    /// A context that was deployed from a layer, or from the image, serves it. So begins its hart.
    Deployed {
        waiter: Waiter<T::Space>,
        from: Option<u16>,
        hart: Hart,
    },
    /// No context is idle, and no frame is free.
    Frames,
    /// It isn't a request that waits.
    Not,
}

/// A context that ended was released.
#[derive(Clone, Copy, Debug, PartialEq, Eq)]
pub struct Released {
    /// How many frames came back.
    pub frames: u32,
}

impl<T: Store> Played<T> {
    /// The next request is started, and its number; none where it may not start so. The only error
    /// is want of memory, also in the calls below.
    pub fn start(&mut self, alloc: Global, one: &Started) -> Result<Option<u32>, Memory> {
        let Some(i) = self.book.next() else {
            return Ok(None);
        };
        let event = Event::Start {
            i,
            f: one.function,
            t: one.given.clock,
        };
        let may = self.may_note(event)?;
        if !may {
            return Ok(None);
        }
        let number = self.book.start(alloc, one)?;
        Ok(Some(number))
    }

    /// A request finds no memory. False where it isn't an open one.
    pub fn want(&mut self, i: u32) -> Result<bool, Memory> {
        let may = self.may_note(Event::Want { i })?;
        if !may {
            return Ok(false);
        }
        self.book.want(i)?;
        Ok(true)
    }

    /// A request that waits is served, by the most recently parked context of its function, or else
    /// by one that is deployed.
    pub fn serve(&mut self, alloc: Global, store: &T, i: u32) -> Result<Served<T>, Memory> {
        let Some(f) = self.waiting_function(i)? else {
            return Ok(Served::Not);
        };
        match self.book.take_idle(i, f)? {
            Some(waiter) => Ok(Served::Hot(waiter)),
            None => self.drawn(alloc, store, i, f),
        }
    }

    /// Spares come back to the shelf. Where memory ran out they are lost.
    pub fn returned(&mut self, store: &T, spares: T::Spares) -> Result<(), Memory> {
        match self.book.returned(store, spares) {
            Ok(()) => Ok(()),
            Err(_) => Err(Memory),
        }
    }

    /// A context ends, after its answer where it gave one, and what it held comes back. None where
    /// it may not end so; then it is lost.
    pub fn end(
        &mut self,
        store: &T,
        i: u32,
        waiter: Waiter<T::Space>,
        answered: Option<u32>,
    ) -> Result<Option<Released>, Memory> {
        let c = waiter.id;
        let may = self.may_end(i, c, answered)?;
        if !may {
            return Ok(None);
        }
        self.book.end(i, c, answered)?;
        let spares = store.release_space(waiter.space);
        let frames = store.count(&spares);
        self.returned(store, spares)?;
        Ok(Some(Released { frames }))
    }

    /// The book is stopped.
    pub fn abandon(&mut self, store: &T) {
        self.book.abandon(store, None);
    }

    /// All that the book holds.
    pub fn close(self) -> Closed<Waiter<T::Space>, Stored<T::Frozen>, T::Shelf> {
        self.book.close()
    }

    /// The book itself.
    pub fn into_book(self) -> Book<Waiter<T::Space>, Stored<T::Frozen>, T::Shelf, Brand>
        ensures { result.sizes.root ≡ if_taken T.Space.takes_frames 1 }
    {
        self.book
    }

    /// The journal so far.
    pub fn events(&self) -> &[Event]
        ensures { result.now ≡ self.now.book.events }
    {
        self.book.events()
    }

    /// The requests that were started.
    pub fn started(&self) -> &[Started]
        ensures { result.now ≡ self.now.book.started }
    {
        self.book.started()
    }

    /// How many frames are free, by the journal.
    pub fn free(&self) -> Result<u32, Memory>
        ensures { IfOk result (λ free. free ≡ self.now.book.state.free) }
    {
        Ok(self.journal()?.free())
    }
}
