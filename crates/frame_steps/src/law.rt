//! What each kind of step on entries and counts tells.

use atomic_table::Play;
use frame_words::Holding;

/// A store of an entry of an owned table.
pub struct Enter;

impl Play<(), Holding> for Enter {
    ghost use Rattle.frame_steps.specs.Plays.{DidEnter};

    ghost then = { DidEnter };
}

/// One more in a count.
pub struct Gain;

impl Play<(), Holding> for Gain {
    ghost use Rattle.frame_steps.specs.Plays.{DidGain};

    ghost then = { DidGain };
}

/// One less in a count.
pub struct Lose;

impl Play<(), Holding> for Lose {
    ghost use Rattle.frame_steps.specs.Plays.{DidLose};

    ghost then = { DidLose };
}
