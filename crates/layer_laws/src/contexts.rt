//! Contexts, and what they have served.

ghost use Rattle.std.specs.Prelude.{◌≡◌, ◌↔◌, ◌++◌, ◌∷◌, [], ℕ, All, List, Option};
ghost use Rattle.layer_laws.specs.Requests.{IsRequest};
ghost use Rattle.layer_model.specs.Layers.{IsPlace, settled};
ghost use Rattle.layer_model.specs.Replies.{IsContext, IsServed};
ghost use Rattle.machine_model.specs.Machine.{Machine};
ghost use Rattle.machine_model.specs.Valid.{IsValid};
ghost use Rattle.plan_model.specs.Outline.{Outline, IsPlan};
ghost use Rattle.space_api.specs.declared.given.Given.{Given};

/// A context that stands at a place and has served these requests is one machine at most.
pub fn one_context()
    ensures { (plan : Outline) (start : ℕ) (place : Option ℕ) (served : List Given)
        (a b : Machine) → IsContext plan start place served a →
        IsContext plan start place served b → a ≡ b }
{}

/// A context that served no request is what stands at its place. One that served a request more,
/// after the others, is what that request's run leaves of the context before it.
pub fn contexts_serve_one_by_one()
    ensures none { (plan : Outline) (start : ℕ) (place : Option ℕ) (m : Machine) →
        IsContext plan start place [] m ↔ IsPlace plan start place m }
    ensures more { (plan : Outline) (start : ℕ) (place : Option ℕ) (served : List Given)
        (given : Given) (after : Machine) →
        IsContext plan start place (served ++ given ∷ []) after
        ↔ ((m : Machine) × IsContext plan start place served m
        × IsServed plan m given after) }
{}

/// Each context of a plan is a valid machine.
pub fn contexts_are_valid()
    ensures { (plan : Outline) (start : ℕ) (place : Option ℕ) (served : List Given)
        (m : Machine) → IsPlan plan → All IsRequest served →
        IsContext plan start place served m → IsValid m }
{}

/// Between its runs a context has no packet queued, and nothing written to net and console.
pub fn contexts_are_settled()
    ensures { (plan : Outline) (start : ℕ) (place : Option ℕ) (served : List Given)
        (m : Machine) → IsContext plan start place served m → settled m ≡ m }
{}
