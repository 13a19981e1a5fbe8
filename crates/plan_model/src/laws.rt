//! Laws of plans. A function here does nothing: its contract is the law.

ghost use Rattle.std.specs.Prelude.{ℕ, List, nat_eq};
ghost use Rattle.std.specs.List.{IsDistinct};
ghost use Rattle.plan_model.specs.Outline.{AreLayers};
ghost use Rattle.plan_model.specs.Stacks.{stack};
ghost use Rattle.plan_model.specs.declared.layer.PlanLayer.{PlanLayer};

/// No layer stands twice in a stack.
pub fn stacks_have_no_layer_twice()
    ensures { (layers : List PlanLayer) (starts number : ℕ) → AreLayers layers starts →
        IsDistinct nat_eq (stack layers number) }
{}
