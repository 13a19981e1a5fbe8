//! The rule as the table keeps it, and what each kind of step tells.

use atomic_table::{Play, TableRule};
use frame_model::Holding;

/// The rule of shared frames.
pub struct FrameLaw;

impl TableRule<(), Holding, u32> for FrameLaw {
    ghost use Rattle.frame_model.specs.Holdings.{held};
    ghost use Rattle.frame_model.specs.Views.{first_view};
    ghost use Rattle.frame_words.specs.Plays.{Kept};

    ghost holds = { Kept };

    ghost first = { λ n. held (first_view n) };
}

/// A load of a frame's word.
pub struct Look;

impl Play<(), Holding> for Look {
    ghost use Rattle.frame_words.specs.Plays.{Looked};

    ghost then = { Looked };
}

/// A load of a frame's meta word.
pub struct LookAtMeta;

impl Play<(), Holding> for LookAtMeta {
    ghost use Rattle.frame_words.specs.Plays.{LookedAtMeta};

    ghost then = { LookedAtMeta };
}

/// A store of an owned word of data.
pub struct Put;

impl Play<(), Holding> for Put {
    ghost use Rattle.frame_words.specs.Plays.{DidPut};

    ghost then = { DidPut };
}

/// A store of an owned meta word.
pub struct Dress;

impl Play<(), Holding> for Dress {
    ghost use Rattle.frame_words.specs.Plays.{DidDress};

    ghost then = { DidDress };
}

/// A load that tells no word: what the view says is sound.
pub struct LookAgain;

impl Play<(), Holding> for LookAgain {
    ghost use Rattle.frame_words.specs.Plays.{LookedAgain};

    ghost then = { LookedAgain };
}

/// A load that tells no word: what a view with the whole stake owns.
pub struct LookAtAll;

impl Play<(), Holding> for LookAtAll {
    ghost use Rattle.frame_words.specs.Plays.{LookedWhole};

    ghost then = { LookedWhole };
}
