//! A context that never runs.

ghost use Rattle.std.specs.Prelude.{◌≡◌, ◌+◌, ◌≤◌, length, true};
ghost use Rattle.space_api.specs.Holding.{first_stake};

use space_api::{Given, Held, Parked, Space, Tells};

/// What a context tells of itself, with a space that no program runs in. The space holds no spare,
/// and was stripped at most once more often than it has served requests.
#[derive(Drop)]
pub struct Waiter<S: Space> {
    /// Its number.
    pub id: u32,
    /// The number of its function.
    pub function: u16,
    /// The number of the layer that it stands on, or none where it stands on an image.
    pub layer: Option<u16>,
    /// The packets and clocks of the requests that it has served, the oldest first.
    pub served: Vec<Given>,
    /// Its space.
    pub space: S,
    ghost bare: { S.spares space ≡ 0 },
    ghost finished: { S.finished space ≡ true },
    ghost staked: { S.takes_frames ≡ true → 2 ≤ S.stake space },
    ghost stripped: { S.takes_frames ≡ true →
        first_stake ≤ S.stake space + length served.items + 1 },
}

impl<S: Space> Held for Waiter<S> {
    ghost stake = { λ w. S.stake w.space };

    ghost span = { λ w. S.span w.space };

    ghost pin = { λ w. S.pin w.space };
}

impl<S: Space> Tells for Waiter<S> {
    ghost use Rattle.std.specs.Prelude.{◌≡◌, false};
    ghost use Rattle.space_api.specs.Told.{ParkedContext};
    ghost use Rattle.book_core_tests.specs.Told.{parked_of};

    ghost tells_same = { λ a b. parked_of a.id a.function a.layer a.served.items (S.spares a.space)
        ≡ parked_of b.id b.function b.layer b.served.items (S.spares b.space) };

    ghost marked = { λ _. false };
}

impl<S: Space> Parked for Waiter<S> {
    ghost use Rattle.std.specs.Prelude.{refl};
    ghost use Rattle.std.proofs.Common.{◌∙◌};
    ghost use Rattle.book_core_tests.specs.Told.{parked_of};

    ghost parked = { λ w. parked_of w.id w.function w.layer w.served.items (S.spares w.space) };

    fn id(&self) -> u32 {
        self.id
    }

    fn function(&self) -> u16 {
        self.function
    }

    fn layer(&self) -> Option<u16> {
        self.layer
    }

    fn served(&self) -> &[Given] {
        &self.served
    }

    ghost parked_is_itself = { λ a. refl };

    ghost same_parked_joins = { λ a b c same more. same ∙ more };

    ghost same_is_parked = { λ a b same. same };

    ghost parked_is_unmarked = { λ a. refl };
}
