//! A book by which rounds are played.

ghost use Rattle.std.specs.Prelude.{◌≡◌, true, Some, None, IfOk, IfSome, OnOk};
ghost use Rattle.journal_model.specs.State.{numbered};
ghost use Rattle.journal_model.specs.Legal.{is_waiting, request_function, first_for};
ghost use Rattle.space_api.specs.Holding.{if_taken};
ghost use Rattle.book_core_tests.specs.Told.{parked_of};
ghost use Rattle.book_rounds.specs.Served.{IsServed};

use crate::contexts::{finished, served_more};
use crate::sizes::{has_function, is_clock, layers_of, may_rest};
use book_core::{Book, Started};
use book_core_tests::{Stored, Waiter};
use machine_model::Memory;
use space_api::Store;
use std::alloc::Global;
use std::marker::Brand;

/// A book by which rounds are played: in each a request is started, a context serves it, and is
/// parked.
#[derive(Drop)]
pub struct Rounds<T: Store> {
    pub alloc: Global,
    pub book: Book<Waiter<T::Space>, Stored<T::Frozen>, T::Shelf, Brand>,
    ghost rooted: { book.sizes.root ≡ if_taken T.Space.takes_frames 1 },
}

impl<T: Store> Rounds<T> {
    /// The next request is started, and its number; none where it may not start so. The only error
    /// is want of memory, also in the calls below.
    fn start(&mut self, one: &Started) -> Result<Option<u32>, Memory>
        ensures waits { IfOk result (λ found. IfSome found (λ i.
            is_waiting self.new.book.state i ≡ true)) }
        ensures function { IfOk result (λ found. IfSome found (λ i.
            request_function self.new.book.state i ≡ one.now.function)) }
        ensures there { IfOk result (λ found. IfSome found (λ i.
            numbered self.new.book.started i ≡ Some one.now)) }
    {
        self.book.is_sound();
        let Some(_next) = self.book.next() else {
            return Ok(None);
        };
        let known = has_function(self.book.sizes(), one.function);
        if !known {
            return Ok(None);
        }
        let timely = is_clock(self.book.sizes(), one.given.clock);
        if !timely {
            return Ok(None);
        }
        let i = self.book.start(self.alloc, one)?;
        Ok(Some(i))
    }

    /// The next context is deployed for a request that waits, where none is idle; none where no
    /// frame is free.
    fn draw(&mut self, store: &T, i: u32, f: u16) -> Result<Option<Waiter<T::Space>>, Memory>
        requires waiting { is_waiting self.old.book.state i ≡ true }
        requires function { request_function self.old.book.state i ≡ f }
        requires none_waits { first_for f self.old.book.state.contexts self.old.book.state.idle
            ≡ None }
        ensures served { IfOk result (λ found. IfSome found (λ w. IsServed i
            (parked_of w.id w.function w.layer w.served.items (T.Space.spares w.space))
            self.new.book.state self.new.book.started)) }
        ensures started { self.new.book.started ≡ self.old.book.started }
    {
        let stack = layers_of(self.alloc, self.book.sizes(), f)?;
        match self.book.deploy_from(self.alloc, store, i, &stack) {
            Err(_) => Ok(None),
            Ok(deployed) => Ok(Some(finished(self.alloc, store, f, deployed))),
        }
    }

    /// A context for a request that waits: the most recently parked one of its function, or else
    /// one that is deployed.
    fn serve(&mut self, store: &T, i: u32, f: u16) -> Result<Option<Waiter<T::Space>>, Memory>
        requires waiting { is_waiting self.old.book.state i ≡ true }
        requires function { request_function self.old.book.state i ≡ f }
        ensures served { IfOk result (λ found. IfSome found (λ w. IsServed i
            (parked_of w.id w.function w.layer w.served.items (T.Space.spares w.space))
            self.new.book.state self.new.book.started)) }
        ensures started { self.new.book.started ≡ self.old.book.started }
    {
        self.book.is_sound();
        match self.book.take_idle(i, f)? {
            Some(waiter) => Ok(Some(waiter)),
            None => self.draw(store, i, f),
        }
    }

    /// The context that serves the request answers it and is parked. False where it may not idle.
    fn park(
        &mut self,
        store: &T,
        i: u32,
        one: &Started,
        waiter: Waiter<T::Space>,
    ) -> Result<bool, Memory>
        requires served { IsServed i (parked_of waiter.id waiter.function waiter.layer
            waiter.served.items (T.Space.spares waiter.space)) self.old.book.state
            self.old.book.started }
        requires there { numbered self.old.book.started i ≡ Some one.now }
    {
        self.book.is_sound();
        let may = may_rest(self.book.sizes(), &waiter.served);
        if !may {
            return Ok(false);
        }
        let given = one.given.copy(self.alloc)?;
        let (waiter, spares) = served_more(store, waiter, given)?;
        match self.book.park(store, i, waiter, spares) {
            Ok(_) => Ok(true),
            Err(_) => Err(Memory),
        }
    }

    /// A round. False where the request may not start, no frame is free, or the context may not
    /// idle.
    pub fn round(&mut self, store: &T, one: &Started) -> Result<bool, Memory> {
        let Some(i) = self.start(one)? else {
            return Ok(false);
        };
        let Some(waiter) = self.serve(store, i, one.function)? else {
            return Ok(false);
        };
        self.park(store, i, one, waiter)
    }
}
