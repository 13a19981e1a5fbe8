//! Lines of requests while the journal grows.

ghost use Rattle.std.specs.Prelude.{◌≡◌, ℕ, List, Option, Some};
ghost use Rattle.batch_model.specs.Replies.{IsLineOf};
ghost use Rattle.journal_model.specs.Extents.{Extents};
ghost use Rattle.journal_model.specs.Legal.{after_all, at_first};
ghost use Rattle.journal_model.specs.State.{State};
ghost use Rattle.journal_model.specs.declared.answer.Answer.{Answer};
ghost use Rattle.journal_model.specs.declared.event.Event.{Event};
ghost use Rattle.plan_model.specs.Outline.{Outline};
ghost use Rattle.space_api.specs.declared.given.Given.{Given};

/// The line of a request stays its line, whatever comes later, where what requests are given stays
/// given.
pub fn lines_stay()
    ensures { (plan : Outline) (sizes : Extents) (first later : List Event) (s t : State)
        (given more : ℕ → Option Given) (i : ℕ) (answer : Answer) →
        after_all sizes (at_first sizes) first ≡ Some s → after_all sizes s later ≡ Some t →
        ((j : ℕ) (one : Given) → given j ≡ Some one → more j ≡ Some one) →
        IsLineOf plan given s i answer → IsLineOf plan more t i answer }
{}
