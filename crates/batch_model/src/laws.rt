//! Laws of batches. A function here does nothing: its contract is the law.

ghost use Rattle.std.specs.Prelude.{◌≡◌, ◌↔◌, ◌+◌, ◌++◌, ◌∷◌, [], ℕ, Bool, true, List, length};
ghost use Rattle.std.specs.Prelude.{Option, Some};
ghost use Rattle.std.specs.List.{list_any};
ghost use Rattle.batch_model.specs.Closings.{refuses, wants};
ghost use Rattle.batch_model.specs.Events.{BuildsRightly, IsBuilt, ParksRightly, ParksSoFar};
ghost use Rattle.batch_model.specs.Events.{is_ok, ok_in};
ghost use Rattle.batch_model.specs.Replies.{AreLinesFrom, IsLineOf};
ghost use Rattle.journal_model.specs.Extents.{Extents};
ghost use Rattle.journal_model.specs.Legal.{after_all, at_first};
ghost use Rattle.journal_model.specs.State.{State};
ghost use Rattle.journal_model.specs.declared.answer.Answer.{Answer};
ghost use Rattle.journal_model.specs.declared.answer.End.TheVariants as ends;
ghost use Rattle.journal_model.specs.declared.event.Event.{Event};
ghost use Rattle.plan_model.specs.Outline.{Outline};
ghost use Rattle.plan_model.specs.declared.numbers.Numbers.{Numbers};
ghost use Rattle.space_api.specs.declared.given.Given.{Given};

/// What is said of a batch as far as its journal goes stays when the journal grows. Two journals
/// that park and build rightly do so in a row, and with the next line, which alone says whether the
/// next request ended with `ok`. The line of a request stays its line whatever comes later, where
/// what requests are given stays given; with the next request's line, lines are those of one
/// request more.
pub fn batches_grow()
    ensures parks { (numbers : Numbers) (ok : ℕ → Bool) (events more : List Event) →
        ParksRightly numbers ok events → ParksRightly numbers ok more →
        ParksRightly numbers ok (events ++ more) }
    ensures so_far { (numbers : Numbers) (answers : List Answer) (answer : Answer)
        (events later : List Event) → ParksSoFar numbers answers events →
        ((more : List Answer) →
        ParksRightly numbers (ok_in ((answers ++ answer ∷ []) ++ more)) later) →
        ParksSoFar numbers (answers ++ answer ∷ []) (events ++ later) }
    ensures ok { (answers : List Answer) (answer : Answer) (more : List Answer) →
        ok_in ((answers ++ answer ∷ []) ++ more) (length answers + 1) ≡ is_ok answer.end }
    ensures whole { (numbers : Numbers) (answers : List Answer) (events : List Event) →
        ParksSoFar numbers answers events → ParksRightly numbers (ok_in answers) events }
    ensures builds { (plan : Outline) (events more : List Event) → BuildsRightly plan events →
        BuildsRightly plan more → BuildsRightly plan (events ++ more) }
    ensures lines { (plan : Outline) (sizes : Extents) (first later : List Event) (s t : State)
        (given more : ℕ → Option Given) (n : ℕ) (answers : List Answer) →
        after_all sizes (at_first sizes) first ≡ Some s → after_all sizes s later ≡ Some t →
        ((j : ℕ) (one : Given) → given j ≡ Some one → more j ≡ Some one) →
        AreLinesFrom plan given s n answers → AreLinesFrom plan more t n answers }
    ensures next { (plan : Outline) (given : ℕ → Option Given) (s : State) (n : ℕ)
        (answers : List Answer) (answer : Answer) → AreLinesFrom plan given s n answers →
        IsLineOf plan given s (n + length answers) answer →
        AreLinesFrom plan given s n (answers ++ answer ∷ []) }
{}

/// A journal fixes its lines: a request has one at most. A layer is built with one number of pages
/// at most.
pub fn batches_are_fixed()
    ensures line { (plan : Outline) (given : ℕ → Option Given) (s : State) (i : ℕ)
        (a b : Answer) → IsLineOf plan given s i a → IsLineOf plan given s i b → a ≡ b }
    ensures pages { (plan : Outline) (number a b : ℕ) → IsBuilt plan number a →
        IsBuilt plan number b → a ≡ b }
{}

/// A request's line says `frames` exactly where the journal has its `refuse`, and `memory` exactly
/// where it has its `want`.
pub fn ends_are_the_journals()
    ensures frames { (plan : Outline) (given : ℕ → Option Given) (sizes : Extents)
        (events : List Event) (s : State) (i : ℕ) (answer : Answer) →
        after_all sizes (at_first sizes) events ≡ Some s → IsLineOf plan given s i answer →
        (answer.end ≡ ends.Frames) ↔ (list_any (refuses i) events ≡ true) }
    ensures memory { (plan : Outline) (given : ℕ → Option Given) (sizes : Extents)
        (events : List Event) (s : State) (i : ℕ) (answer : Answer) →
        after_all sizes (at_first sizes) events ≡ Some s → IsLineOf plan given s i answer →
        (answer.end ≡ ends.Memory) ↔ (list_any (wants i) events ≡ true) }
{}
