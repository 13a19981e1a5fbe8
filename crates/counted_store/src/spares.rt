//! Spares.

ghost use Rattle.std.specs.Prelude.{◌≡◌};

use space_api::Held;
use std::sync::ledger::{Ledger, Share};

/// Frames on their way to the shelf, with the stake of whoever held them.
#[derive(Drop)]
pub struct CountedSpares<L: Ledger> {
    pub(crate) share: Share<L>,
    pub(crate) frames: u32,
    ghost counted: { share.amount ≡ frames },
}

impl<L: Ledger> Held for CountedSpares<L> {
    ghost use Rattle.std.specs.Prelude.{None};

    ghost stake = { λ spares. spares.share.parts };

    ghost span = { λ spares. spares.frames };

    ghost pin = { λ _. None };
}
