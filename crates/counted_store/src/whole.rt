//! That a ledger's parts fit a number.

ghost use Rattle.std.specs.Prelude.{◌≡◌, ◌^◌, ◌<◌};

use std::marker::{Model, PhantomData};
use std::sync::ledger::Ledger;

/// Known where it is: the ledger has fewer than 2^64 parts.
#[derive(Drop)]
pub struct Whole<L: Ledger> {
    marker: PhantomData<L>,
}

impl<L: Ledger> Model for Whole<L> {
    ghost use Rattle.std.specs.Prelude.{◌^◌, ◌<◌, ℕ};

    ghost Value = { ℕ };

    ghost view = { λ _. 0 };

    ghost invariant = { λ _. L.parts < 2 ^ 64 };
}

impl<L: Ledger> Whole<L> {
    /// Of a ledger of so many parts.
    pub fn of(parts: u64) -> Whole<L>
        requires { parts ≡ L.parts }
    {
        Whole {
            marker: PhantomData,
        }
    }

    /// Does nothing: its contract is what is known.
    pub fn fits(&self)
        ensures { L.parts < 2 ^ 64 }
    {
        let _ = &self.marker;
    }
}
