//! How a view is cut in two, and how two are made one.

use crate::part::Part;
use atomic_table::{Join, Split};
use frame_model::Holding;
use std::marker::{Brand, PhantomData};

/// The part that a split names. The proof of a split picks it, whatever it is.
pub trait Named {
    ghost use Rattle.frame_words.specs.declared.part.Part.{Part};

    ghost part: { Part };
}

impl Named for Brand {
    ghost use Rattle.frame_words.specs.declared.part.Part.TheVariants.{Pile};

    ghost part = { Pile (record { 0 = 0 }) 0 0 };
}

/// The cut along a part.
pub struct Cut<P: Named>(PhantomData<P>);

impl<P: Named> Split<Holding> for Cut<P> {
    ghost use Rattle.frame_model.specs.Holdings.{held, with_view};
    ghost use Rattle.frame_words.specs.Steps.{kept_of, given_of};

    ghost left = { λ h. with_view h (kept_of P.part h.view) };

    ghost right = { λ h. held (given_of P.part h.view) };
}

/// Two views as one.
pub struct Unite;

impl Join<Holding> for Unite {
    ghost use Rattle.frame_model.specs.Holdings.{held, with_view};
    ghost use Rattle.frame_words.specs.Steps.{joined, spent};

    ghost both = { λ h other. with_view h (joined h.view other.view) };

    ghost spent = { held spent };
}
