//! What a context tells to whoever keeps it.

use crate::context::Context;
use space_api::{Given, Held, Parked, PinIn, Space, Store, Tells};

impl<'a, S: Space> Held for Context<'a, S> {
    ghost stake = { λ c. S.stake c.space };

    ghost span = { λ c. S.span c.space };

    ghost pin = { λ c. S.pin c.space };
}

impl<'a, S: Space> Tells for Context<'a, S> {
    ghost use Rattle.std.specs.Prelude.{false};
    ghost use Rattle.context_uc.specs.Views.{TellsContext};

    ghost tells_same = { TellsContext S.flat S.spares };

    ghost marked = { λ _. false };
}

impl<'a, S: Space> Parked for Context<'a, S> {
    ghost use Rattle.std.specs.Prelude.{refl};
    ghost use Rattle.context_uc.specs.Views.{parked_of};
    ghost use Rattle.context_uc.specs.Same.{context_is_itself, contexts_join};

    ghost parked = { parked_of S.spares };

    fn id(&self) -> u32 {
        self.id
    }

    fn function(&self) -> u16 {
        self.function
    }

    fn layer(&self) -> Option<u16> {
        self.layer
    }

    fn served(&self) -> &[Given] {
        &self.served
    }

    ghost parked_is_itself = { context_is_itself S.flat S.spares };

    ghost same_parked_joins = { contexts_join S.flat S.spares };

    ghost same_is_parked = { λ _ _ same. same.parked };

    ghost parked_is_unmarked = { λ a. refl };
}

impl<'a, T: Store> PinIn<T> for Context<'a, T::Space> {
    ghost ready = { λ c. T.Space.finished c.space };

    fn pin_in(&mut self, store: &T, shelf: &mut T::Shelf) {
        store.pin_space(shelf, &mut self.space);
    }

    fn unpin_in(&mut self, store: &T, shelf: &mut T::Shelf) {
        store.unpin_space(shelf, &mut self.space);
    }
}
