//! What a layer tells to whoever keeps it.

use crate::layer::Layer;
use space_api::{FrozenMemory, Hart, Held, Kept, KeptIn, PinIn, Refused, Store, Tells};
use std::alloc::Global;

impl<'a, Z: FrozenMemory> Held for Layer<'a, Z> {
    ghost stake = { λ l. Z.stake l.frozen };

    ghost span = { λ l. Z.span l.frozen };

    ghost pin = { λ l. Z.pin l.frozen };
}

impl<'a, Z: FrozenMemory> Tells for Layer<'a, Z> {
    ghost use Rattle.space_api.specs.Stores.{frozen_of};
    ghost use Rattle.context_uc.specs.Views.{TellsLayer};

    ghost tells_same = { TellsLayer (λ z. frozen_of (Z.flat z) (Z.image z)) };

    ghost marked = { λ l. Z.image l.frozen };
}

impl<'a, Z: FrozenMemory> Kept for Layer<'a, Z> {
    ghost use Rattle.std.specs.Prelude.{refl};
    ghost use Rattle.space_api.specs.Stores.{frozen_of};
    ghost use Rattle.context_uc.specs.Views.{kept_of};
    ghost use Rattle.context_uc.specs.Same.{layer_is_itself, layers_join};

    ghost kept = { kept_of (λ z. frozen_of (Z.flat z) (Z.image z)) };

    fn number(&self) -> Option<u16> {
        self.number
    }

    fn start(&self) -> u16 {
        self.start
    }

    fn hart(&self) -> &Hart {
        &self.hart
    }

    ghost kept_is_itself = { layer_is_itself (λ z. frozen_of (Z.flat z) (Z.image z)) };

    ghost same_kept_joins = { layers_join (λ z. frozen_of (Z.flat z) (Z.image z)) };

    ghost same_is_kept = { λ _ _ same. same.kept };

    ghost marked_is_kept = { λ a. refl };
}

impl<'a, T: Store> KeptIn<T> for Layer<'a, T::Frozen> {
    fn deploy_on(
        &mut self,
        alloc: Global,
        store: &T,
        shelf: &mut T::Shelf,
    ) -> Result<T::Space, Refused> {
        store.deploy(alloc, &mut self.frozen, shelf)
    }
}

impl<'a, T: Store> PinIn<T> for Layer<'a, T::Frozen> {
    ghost use Rattle.std.specs.Prelude.{true};

    ghost ready = { λ _. true };

    fn pin_in(&mut self, store: &T, shelf: &mut T::Shelf) {
        store.pin_frozen(shelf, &mut self.frozen);
    }

    fn unpin_in(&mut self, store: &T, shelf: &mut T::Shelf) {
        store.unpin_frozen(shelf, &mut self.frozen);
    }
}
