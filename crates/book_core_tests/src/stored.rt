//! A layer that no program made.

ghost use Rattle.std.specs.Prelude.{◌≡◌, true, is_none};

use space_api::{FrozenMemory, Hart, Held, Kept, KeptIn, Refused, Store, Tells};
use std::alloc::Global;

/// A layer, or an image where it has no number.
#[derive(Drop)]
pub struct Stored<Z: FrozenMemory> {
    /// Its number, or none where it is an image.
    pub number: Option<u16>,
    /// The number of the start at the bottom of its stack.
    pub start: u16,
    /// The hart that what is deployed from it begins with.
    pub hart: Hart,
    /// Its memory.
    pub frozen: Z,
    ghost image: { Z.image frozen ≡ is_none number },
    ghost loose: { is_none (Z.pin frozen) ≡ true },
}

impl<Z: FrozenMemory> Held for Stored<Z> {
    ghost stake = { λ l. Z.stake l.frozen };

    ghost span = { λ l. Z.span l.frozen };

    ghost pin = { λ l. Z.pin l.frozen };
}

impl<Z: FrozenMemory> Tells for Stored<Z> {
    ghost use Rattle.std.specs.Prelude.{◌≡◌};
    ghost use Rattle.space_api.specs.Stores.{frozen_of};
    ghost use Rattle.book_core_tests.specs.Told.{kept_of};

    ghost tells_same = { λ a b.
        kept_of a.number a.start a.hart (frozen_of (Z.flat a.frozen) (Z.image a.frozen))
        ≡ kept_of b.number b.start b.hart (frozen_of (Z.flat b.frozen) (Z.image b.frozen)) };

    ghost marked = { λ l. Z.image l.frozen };
}

impl<Z: FrozenMemory> Kept for Stored<Z> {
    ghost use Rattle.std.specs.Prelude.{refl};
    ghost use Rattle.std.proofs.Common.{◌∙◌};
    ghost use Rattle.space_api.specs.Stores.{frozen_of};
    ghost use Rattle.book_core_tests.specs.Told.{kept_of};

    ghost kept = { λ l. kept_of l.number l.start l.hart
        (frozen_of (Z.flat l.frozen) (Z.image l.frozen)) };

    fn number(&self) -> Option<u16> {
        self.number
    }

    fn start(&self) -> u16 {
        self.start
    }

    fn hart(&self) -> &Hart {
        &self.hart
    }

    ghost kept_is_itself = { λ a. refl };

    ghost same_kept_joins = { λ a b c same more. same ∙ more };

    ghost same_is_kept = { λ a b same. same };

    ghost marked_is_kept = { λ a. refl };
}

impl<T: Store> KeptIn<T> for Stored<T::Frozen> {
    fn deploy_on(
        &mut self,
        alloc: Global,
        store: &T,
        shelf: &mut T::Shelf,
    ) -> Result<T::Space, Refused> {
        store.deploy(alloc, &mut self.frozen, shelf)
    }
}
