//! Memory, and the pages that were written.

ghost use Rattle.std.specs.Prelude.{◌≡◌, ◌^◌, ◌<◌, ℕ, All, List, Option, false, true};
ghost use Rattle.image_model.specs.Pages.{page_of};
ghost use Rattle.layer_laws.specs.Requests.{IsRequest};
ghost use Rattle.layer_model.specs.Layers.{IsStep};
ghost use Rattle.layer_model.specs.Overlay.{difference, overlay};
ghost use Rattle.layer_model.specs.Replies.{IsContext};
ghost use Rattle.machine_model.specs.Machine.{Machine};
ghost use Rattle.machine_model.specs.Run.{End, IsRun, Limits};
ghost use Rattle.machine_model.specs.Valid.{IsValid};
ghost use Rattle.plan_model.specs.Outline.{Outline, IsPlan};
ghost use Rattle.space_api.specs.declared.given.Given.{Given};

/// A run changes bytes only on pages that count as written at its end, and takes no page out of
/// those that were written before.
pub fn runs_write_what_they_mark()
    ensures bytes { (clock : ℕ) (limits : Limits) (m : Machine) (end : End) (a : ℕ) →
        clock < 2 ^ 64 → IsValid m → IsRun clock limits m end →
        end.machine.written (page_of a) ≡ false → end.machine.memory a ≡ m.memory a }
    ensures marks { (clock : ℕ) (limits : Limits) (m : Machine) (end : End) (page : ℕ) →
        clock < 2 ^ 64 → IsValid m → IsRun clock limits m end → m.written page ≡ true →
        end.machine.written page ≡ true }
{}

/// The memory of a layer is that of the layer or image below, with the pages in the place of its
/// own that were written on the way to the trigger, as they are there.
pub fn layers_are_overlays()
    ensures { (plan : Outline) (number : ℕ) (below after : Machine) → IsPlan plan →
        IsValid below → (step : IsStep plan number below after) →
        after.memory ≡ overlay below.memory (difference step.reached) }
{}

/// The memory of a context is that of the place where it stands, with the pages in the place of its
/// own that its requests wrote.
pub fn contexts_are_overlays()
    ensures { (plan : Outline) (start : ℕ) (place : Option ℕ) (served : List Given)
        (m : Machine) → IsPlan plan → All IsRequest served →
        (context : IsContext plan start place served m) →
        m.memory ≡ overlay context.base.memory (difference m) }
{}
