//! The store.

ghost use Rattle.std.specs.Prelude.{◌≡◌, IsOk, IfOk};

use crate::frozen::PlainFrozen;
use crate::shelf::PlainShelf;
use crate::space::PlainSpace;
use crate::spares::PlainSpares;
use space_api::{Captured, Memory, Refused, Start, Stock, Store};
use std::alloc::Global;

/// A store of copied pages, which borrows the starts of the images. It takes no frames: each
/// stake, each span and each count of frames is 0.
#[derive(Drop)]
pub struct PlainStore<'a> {
    starts: &'a [Start],
}

impl<'a> PlainStore<'a> {
    ghost use Rattle.plain_space.specs.PlainStore.{starts_of};

    /// The store of these starts. It takes no memory, and is never refused.
    pub fn open(starts: &'a [Start]) -> Result<PlainStore<'a>, Memory>
        ensures opened { IsOk result }
        ensures starts { IfOk result (λ store. starts_of store ≡ starts.now) }
    {
        Ok(PlainStore { starts })
    }
}

impl Store for PlainStore<'_> {
    ghost use Rattle.std.specs.Prelude.{◌≡◌, ℕ, ◌+◌, ◌<◌, ◌≤◌, Bool, true, false, List, length};
    ghost use Rattle.std.specs.Prelude.{slice_get, Option, None, Some, IfOk, OnOk, OnErr, IfSome};
    ghost use Rattle.std.proofs.Common.{rules, refl};
    ghost use Rattle.image_model.specs.Layout.{Layout};
    ghost use Rattle.space_api.specs.Flat.{flat_of};
    ghost use Rattle.space_api.specs.Holding.{holding_of, first_stake, if_taken, Gave, IsOpened};
    ghost use Rattle.space_api.specs.Holding.{with_returned, MayPin, MayUnpin, WasPinned};
    ghost use Rattle.space_api.specs.Holding.{WasUnpinned, IfTaken, IsWeighed};
    ghost use Rattle.space_api.specs.Stores.{spaced_of, frozen_of, frozen, image_frames};
    ghost use Rattle.space_api.specs.Stores.{refilled, RefusesRightly, Captures};
    ghost use Rattle.plain_space.specs.PlainStore.{starts_of};

    type Space = PlainSpace;

    type Frozen = PlainFrozen;

    type Shelf = PlainShelf;

    type Spares = PlainSpares;

    ghost starts = { starts_of };

    ghost number = { λ _. 0 };

    fn open_image(
        &self,
        alloc: Global,
        _shelf: &mut PlainShelf,
        start: u16,
    ) -> Result<PlainFrozen, Refused> {
        match PlainFrozen::open(alloc, &self.starts[usize::from(start)]) {
            Ok(image) => Ok(image),
            Err(Memory) => Err(Refused::Memory),
        }
    }

    fn deploy(
        &self,
        alloc: Global,
        below: &mut PlainFrozen,
        _shelf: &mut PlainShelf,
    ) -> Result<PlainSpace, Refused> {
        match below.deploy(alloc) {
            Ok(space) => Ok(space),
            Err(Memory) => Err(Refused::Memory),
        }
    }

    fn finish_deploy(&self, space: &mut PlainSpace) {
        space.finish();
    }

    fn capture(&self, alloc: Global, space: PlainSpace) -> Captured<PlainFrozen, PlainSpace> {
        let mut space = space;
        let pages = space.count_marks();
        match space.freeze(alloc) {
            Ok(kept) => Captured::Done {
                frozen: PlainFrozen::captured(kept),
                space,
                pages,
            },
            Err(Memory) => Captured::Memory(space),
        }
    }

    fn release_space(&self, _space: PlainSpace) -> PlainSpares {
        PlainSpares
    }

    fn release_frozen(&self, _frozen: PlainFrozen) -> PlainSpares {
        PlainSpares
    }

    fn strip(&self, _space: &mut PlainSpace) -> PlainSpares {
        PlainSpares
    }

    fn refill(&self, _shelf: &mut PlainShelf, _space: &mut PlainSpace) -> u32 {
        0
    }

    fn give_back(&self, _shelf: &mut PlainShelf, _spares: PlainSpares) {}

    fn free(&self, shelf: &PlainShelf) -> u32 {
        shelf.free()
    }

    fn count(&self, _spares: &PlainSpares) -> u32 {
        0
    }

    fn pin_space(&self, _shelf: &mut PlainShelf, _space: &mut PlainSpace) {}

    fn unpin_space(&self, _shelf: &mut PlainShelf, _space: &mut PlainSpace) {}

    fn pin_frozen(&self, _shelf: &mut PlainShelf, _frozen: &mut PlainFrozen) {}

    fn unpin_frozen(&self, _shelf: &mut PlainShelf, _frozen: &mut PlainFrozen) {}

    fn weigh(&self, _shelf: &mut PlainShelf) {}

    ghost spares_are_counted = { λ _. (refl, refl) };

    ghost shelf_is_spanned = { λ _. refl };

    ghost none_are_taken = { λ _. (λ _. refl, λ _. refl) };
}
