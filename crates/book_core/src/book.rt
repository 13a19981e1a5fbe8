//! The book.

ghost use Rattle.std.specs.Prelude.{◌≡◌, ℕ, ◌+◌, [], false, length, nat_lt, IfOk};
ghost use Rattle.std.specs.Prelude.{if◌then◌else◌, Some, None};
ghost use Rattle.std.specs.List.{slice_get};
ghost use Rattle.journal_model.specs.Legal.{at_first};
ghost use Rattle.book_model.specs.Kept.{IsBook, IsOpenable, IsImageOf, IsStaked, IsNoting, IsWhole};

use crate::grounds::Grounds;
use book_log::{Log, Started};
use journal_model::{Event, Sizes};
use machine_model::Memory;
use slot_lists::{IdleSlots, LayerSlots};
use space_api::{Kept, Parked, Stock};
use std::alloc::Global;
use std::marker::{Model, PhantomData};

/// Idle contexts, kept layers, images, the shelf, and the journal with the requests that were
/// started.
///
/// The journal is legal, owes nothing, and leads to the idle contexts, the kept layers and, as long
/// as the book isn't stopped, to the number of free frames.
#[derive(Drop)]
pub struct Book<C: Parked, L: Kept, H: Stock, G: Grounds<C, L>> {
    pub(crate) log: Log,
    pub(crate) idle: IdleSlots<C>,
    pub(crate) kept: LayerSlots<L>,
    pub(crate) images: Vec<L>,
    pub(crate) shelf: H,
    pub(crate) stopped: bool,
    pub(crate) of: PhantomData<G>,
}

impl<C: Parked, L: Kept, H: Stock, G: Grounds<C, L>> Model for Book<C, L, H, G> {
    ghost use Rattle.std.specs.Prelude.{◌≡◌};
    ghost use Rattle.book_model.specs.Shared.{Shared};
    ghost use Rattle.book_model.specs.Kept.{IsBook};

    ghost Value = { Shared C L H };

    ghost view = { λ b. record {
      sizes = b.log.sizes;
      events = b.log.events;
      state = b.log.state;
      started = b.log.started;
      idle = b.idle.entries;
      kept = b.kept.entries;
      images = b.images.items;
      shelf = b.shelf;
      stopped = b.stopped;
    } };

    ghost invariant = { λ b. (b.idle.room ≡ b.log.sizes.idle) × (b.kept.room ≡ b.log.sizes.layers)
        × IsBook C.parked C.pin G.is_context L.kept L.pin G.is_layer H.stocked (record {
          sizes = b.log.sizes;
          events = b.log.events;
          state = b.log.state;
          started = b.log.started;
          idle = b.idle.entries;
          kept = b.kept.entries;
          images = b.images.items;
          shelf = b.shelf;
          stopped = b.stopped;
        }) };
}

impl<C: Parked, L: Kept, H: Stock, G: Grounds<C, L>> Book<C, L, H, G> {
    /// A book of no events, with one image for each start, in order, and a shelf that has all the
    /// free frames and, over frames, the whole stake together with the images, which were opened
    /// from it. The only error is want of memory.
    pub fn open(
        alloc: Global,
        sizes: Sizes,
        shelf: H,
        images: Vec<L>,
    ) -> Result<Book<C, L, H, G>, Memory>
    where
        C: Drop,
        L: Drop,
        H: Drop,
        requires sizes { IsOpenable sizes (length images.items) }
        requires images { (start : ℕ) (image : L) → slice_get images.items start ≡ Some image →
            G.is_layer image × IsImageOf start (L.kept image) (L.pin image) }
        requires free { (H.stocked shelf).free ≡ sizes.frames }
        requires stake { IsStaked sizes.root 0 (H.stocked shelf) }
        requires notes { IsNoting sizes.root (length images.items) (H.stocked shelf) }
        requires whole { IsWhole sizes.root L.stake images.items (H.stocked shelf) }
        ensures { IfOk result (λ book. book ≡ record {
          sizes = sizes;
          events = [];
          state = at_first sizes;
          started = [];
          idle = [];
          kept = [];
          images = images.items;
          shelf = shelf;
          stopped = false;
        }) }
    {
        let idle = IdleSlots::open(alloc, sizes.idle)?;
        let kept = LayerSlots::open(alloc, sizes.layers)?;
        Ok(Book {
            log: Log::open(alloc, sizes),
            idle,
            kept,
            images,
            shelf,
            stopped: false,
            of: PhantomData,
        })
    }

    /// The number of the next request; none exactly where all were started.
    pub fn next(&self) -> Option<u32>
        ensures { result ≡ (if nat_lt (length self.now.started) self.now.sizes.requests
            then Some (length self.now.started + 1) else None) }
    {
        self.log.next()
    }

    /// The sizes that bound the journal.
    pub fn sizes(&self) -> &Sizes
        ensures { result.now ≡ self.now.sizes }
    {
        self.log.sizes()
    }

    /// The journal so far.
    pub fn events(&self) -> &[Event]
        ensures { result.now ≡ self.now.events }
    {
        self.log.events()
    }

    /// The requests that were started, in the order of their numbers.
    pub fn started(&self) -> &[Started]
        ensures { result.now ≡ self.now.started }
    {
        self.log.started()
    }

    /// Hands out what is kept, and does nothing.
    pub fn is_sound(&self)
        ensures { IsBook C.parked C.pin G.is_context L.kept L.pin G.is_layer H.stocked self.now }
    {
        let _stopped = self.stopped;
    }
}
