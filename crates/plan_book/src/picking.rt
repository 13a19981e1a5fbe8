//! The grounds of a plan's book, which whoever opens it picks.

use book_core::Grounds;
use context_uc::{Context, Layer};
use space_api::{FrozenMemory, Space};
use std::marker::{Brand, PhantomData};

/// The plan of a book. Contracts alone see it: whoever opens the book picks it for `Brand`.
pub trait Planned {
    ghost use Rattle.plan_model.specs.Outline.{Outline};

    /// The plan.
    ghost plan: { Outline };
}

impl Planned for Brand {
    ghost use Rattle.plan_book.specs.OfPlan.{empty_plan};

    ghost plan = { empty_plan };
}

/// The grounds of the plan: exactly its contexts and its layers.
pub struct PlanGrounds<P: Planned>(PhantomData<P>);

impl<'a, S: Space, Z: FrozenMemory, P: Planned> Grounds<Context<'a, S>, Layer<'a, Z>>
    for PlanGrounds<P> {
    ghost use Rattle.deployer.specs.Grounds.{IsContextOf, IsLayerOf};
    ghost use Rattle.plan_book.specs.OfPlan.{layer_stays};

    ghost is_context = { IsContextOf P.plan };

    ghost is_layer = { IsLayerOf P.plan Z.flat };

    ghost layer_stays = { layer_stays Z.flat Z.image P.plan };
}
