//! Which layers there are.

ghost use Rattle.std.specs.Prelude.{◌≡◌, ◌⊎◌, ℕ, Some, slice_get, true};
ghost use Rattle.journal_model.specs.State.{contains};
ghost use Rattle.layer_model.specs.Layers.{IsLayer, IsNoLayer, IsPlace};
ghost use Rattle.machine_model.specs.Machine.{Machine};
ghost use Rattle.machine_model.specs.declared.stop.Stop.{Stop};
ghost use Rattle.plan_model.specs.Outline.{Outline, IsPlan};
ghost use Rattle.plan_model.specs.Stacks.{stack};
ghost use Rattle.plan_model.specs.declared.layer.PlanLayer.{PlanLayer};

/// A layer is one machine at most; that there is none has one reason at most, and only where there
/// is none.
pub fn each_layer_is_one_or_none()
    ensures one { (plan : Outline) (number : ℕ) (a b : Machine) → IsLayer plan number a →
        IsLayer plan number b → a ≡ b }
    ensures reason { (plan : Outline) (number : ℕ) (a b : Stop) → IsNoLayer plan number a →
        IsNoLayer plan number b → a ≡ b }
    ensures not_both { (plan : Outline) (number : ℕ) (m : Machine) (why : Stop) → IsPlan plan →
        IsLayer plan number m → IsNoLayer plan number why → ⊥ }
{}

/// Where a machine stands at the place below a layer of a plan, there is the layer or a reason why
/// not.
pub fn layers_are_there_or_not()
    ensures { (plan : Outline) (number : ℕ) (layer : PlanLayer) (below : Machine) → IsPlan plan →
        slice_get plan.layers number ≡ Some layer →
        IsPlace plan layer.start layer.below below →
        ((m : Machine) × IsLayer plan number m) ⊎ ((why : Stop) × IsNoLayer plan number why) }
{}

/// Each layer of a plan is there, or a layer of its stack isn't, for a reason; and not both. No
/// other layer of the stack then has a reason of its own.
pub fn stacks_stop_at_one_layer()
    ensures there_or_not { (plan : Outline) (number : ℕ) (layer : PlanLayer) → IsPlan plan →
        slice_get plan.layers number ≡ Some layer →
        ((m : Machine) × IsLayer plan number m)
        ⊎ ((lower : ℕ) × (why : Stop) × (contains lower (stack plan.layers number) ≡ true)
        × IsNoLayer plan lower why) }
    ensures not_both { (plan : Outline) (number lower : ℕ) (m : Machine) (why : Stop) →
        IsPlan plan → contains lower (stack plan.layers number) ≡ true →
        IsLayer plan number m → IsNoLayer plan lower why → ⊥ }
    ensures once { (plan : Outline) (number i j : ℕ) (a b : Stop) → IsPlan plan →
        contains i (stack plan.layers number) ≡ true →
        contains j (stack plan.layers number) ≡ true → IsNoLayer plan i a →
        IsNoLayer plan j b → i ≡ j }
{}
