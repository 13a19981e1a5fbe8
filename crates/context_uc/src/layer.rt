//! Layers.

ghost use Rattle.std.specs.Prelude.{◌≡◌, ◌<◌, true, Some, None, IfSome, length, slice_get};
ghost use Rattle.machine_model.specs.Loaded.{loaded};
ghost use Rattle.space_api.specs.Flat.{flat_of, machine_of};
ghost use Rattle.space_api.specs.Stores.{frozen_of};
ghost use Rattle.context_uc.specs.Views.{IsKept, silent};

use layer_model::Plan;
use space_api::{FrozenMemory, Hart, first_hart};
use std::marker::Model;

/// A layer of a plan: the memory that a run had when it came to the layer's trigger, frozen, and
/// the hart then. Or an image of the plan: the memory and the hart that it starts with.
///
/// It is the layer, or the image, that the plan means.
#[derive(Drop)]
pub struct Layer<'a, Z: FrozenMemory> {
    pub(crate) plan: &'a Plan,
    pub(crate) number: Option<u16>,
    pub(crate) start: u16,
    pub(crate) hart: Hart,
    pub(crate) frozen: Z,
}

impl<'a, Z: FrozenMemory> Model for Layer<'a, Z> {
    ghost use Rattle.context_uc.specs.Views.{LayerView, IsKept};

    ghost Value = { LayerView Z };

    ghost view = { λ l. record {
      plan = l.plan.now;
      number = l.number;
      start = l.start;
      hart = l.hart;
      frozen = l.frozen;
    } };

    ghost invariant = { λ l. IsKept (record {
      plan = l.plan.now;
      number = l.number;
      start = l.start;
      hart = l.hart;
      frozen = l.frozen;
    }) (Z.flat l.frozen) };
}

impl<'a, Z: FrozenMemory> Layer<'a, Z> {
    /// The image of the plan with the number of its start, whose frozen memory this is.
    pub fn image(plan: &'a Plan, start: u16, frozen: Z) -> Layer<'a, Z>
        requires memory { IfSome (slice_get plan.now.starts start) (λ layout.
            frozen_of (Z.flat frozen) (Z.image frozen) ≡ frozen_of (flat_of layout) true) }
        requires within { start < length plan.now.starts }
        ensures { IfSome (slice_get plan.now.starts start) (λ layout.
            (result.plan ≡ plan.now) × (result.number ≡ None) × (result.start ≡ start)
            × (machine_of result.hart (flat_of layout) silent ≡ loaded layout)
            × (result.frozen ≡ frozen)) }
    {
        let hart = first_hart(&plan.starts()[usize::from(start)]);
        Layer {
            plan,
            number: None,
            start,
            hart,
            frozen,
        }
    }

    /// The plan that it borrows.
    pub fn plan(&self) -> &'a Plan
        ensures { result.now ≡ self.now.plan }
    {
        self.plan
    }

    /// Changes nothing: what holds of every layer is what it ensures.
    pub fn is_the_model(&self)
        ensures { IsKept self.now (Z.flat self.now.frozen) }
    {
        let _plan = self.plan;
    }
}
