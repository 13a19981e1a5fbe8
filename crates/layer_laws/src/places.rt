//! Where machines stand.

ghost use Rattle.std.specs.Prelude.{◌≡◌, ◌↔◌, ◌<◌, ℕ, Option, None, Some, length, slice_get};
ghost use Rattle.image_model.specs.Layout.{Layout};
ghost use Rattle.layer_model.specs.Layers.{IsLayer, IsPlace, IsStep, quiet};
ghost use Rattle.machine_model.specs.Loaded.{loaded};
ghost use Rattle.machine_model.specs.Machine.{Machine};
ghost use Rattle.machine_model.specs.Valid.{IsValid};
ghost use Rattle.plan_model.specs.Outline.{Outline, IsPlan};
ghost use Rattle.plan_model.specs.declared.layer.PlanLayer.{PlanLayer};

/// At a place over an image stands one machine at most.
pub fn one_place()
    ensures { (plan : Outline) (start : ℕ) (place : Option ℕ) (a b : Machine) →
        IsPlace plan start place a → IsPlace plan start place b → a ≡ b }
{}

/// On an image stands exactly the machine that is loaded with its start, and there is one for each
/// start.
pub fn images_are_places()
    ensures place { (plan : Outline) (start : ℕ) (m : Machine) → IsPlace plan start None m
        ↔ ((layout : Layout) × (slice_get plan.starts start ≡ Some layout)
        × (m ≡ loaded layout)) }
    ensures there { (plan : Outline) (start : ℕ) → start < length plan.starts →
        (m : Machine) × IsPlace plan start None m }
{}

/// At a layer's place stands exactly what its step leads to from the place below; and at the place
/// below, where that is a layer's, stands exactly that layer.
pub fn layers_stand_on_places()
    ensures step { (plan : Outline) (start number : ℕ) (layer : PlanLayer) (m : Machine) →
        IsPlan plan → slice_get plan.layers number ≡ Some layer →
        IsPlace plan start (Some number) m
        ↔ ((below : Machine) × IsPlace plan start layer.below below
        × IsStep plan number below m) }
    ensures below { (plan : Outline) (number lower : ℕ) (layer : PlanLayer) (m : Machine) →
        IsPlan plan → slice_get plan.layers number ≡ Some layer → layer.below ≡ Some lower →
        IsLayer plan lower m ↔ IsPlace plan layer.start layer.below m }
{}

/// Each machine that stands at a place of a plan is valid.
pub fn places_are_valid()
    ensures { (plan : Outline) (start : ℕ) (place : Option ℕ) (m : Machine) → IsPlan plan →
        IsPlace plan start place m → IsValid m }
{}

/// At a place no page was written, no packet is queued, and nothing was written to net and console.
pub fn places_are_quiet()
    ensures { (plan : Outline) (start : ℕ) (place : Option ℕ) (m : Machine) →
        IsPlace plan start place m → quiet m ≡ m }
{}
