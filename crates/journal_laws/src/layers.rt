//! Stacks of layers.

ghost use Rattle.std.specs.Prelude.{◌≡◌, ◌↔◌, ◌+◌, ◌≤◌, ◌<◌, ℕ, List, Option, Some, None, All};
ghost use Rattle.std.specs.Prelude.{true, false, nat_eq};
ghost use Rattle.std.specs.List.{slice_get};
ghost use Rattle.std.specs.List.{IsDistinct};
ghost use Rattle.journal_model.specs.Bounds.{IsSized};
ghost use Rattle.journal_model.specs.Extents.{Extents, Stack};
ghost use Rattle.journal_model.specs.State.{contains, layer_above, highest_kept};
ghost use Rattle.journal_laws.specs.Stacks.{IsHighest, IsNoneKept, IsRising};

/// In a stack without doubles, what stands directly above the layer at a place is the layer at the
/// next; a layer stands directly above one place only, which is a layer or the image.
pub fn layers_stand_above_one_place()
    ensures next { (stack : List ℕ) (at a : ℕ) → IsDistinct nat_eq stack →
        slice_get stack at ≡ Some a → layer_above (Some a) stack ≡ slice_get stack (at + 1) }
    ensures once { (stack : List ℕ) (p q : Option ℕ) (k : ℕ) → IsDistinct nat_eq stack →
        layer_above p stack ≡ Some k → layer_above q stack ≡ Some k → p ≡ q }
    ensures place { (stack : List ℕ) (i j a : ℕ) → IsDistinct nat_eq stack →
        slice_get stack i ≡ Some a → slice_get stack j ≡ Some a → i ≡ j }
{}

/// The highest kept layer of a stack is one that is kept, above which none is; there is none
/// exactly where none of the stack is kept.
pub fn highest_kept_is_one()
    ensures some { (kept stack : List ℕ) (k : ℕ) →
        (highest_kept kept stack ≡ Some k) ↔ IsHighest kept stack k }
    ensures none { (kept stack : List ℕ) →
        (highest_kept kept stack ≡ None) ↔ IsNoneKept kept stack }
{}

/// Sizes are sized where there is room for a layer and the layers' numbers rise in each stack, as
/// they do where each layer stands on an earlier one.
pub fn rising_stacks_are_sized()
    ensures { (sizes : Extents) → 1 ≤ sizes.layers →
        All (λ (stack : Stack). IsRising stack.layers) sizes.stacks → IsSized sizes }
{}
