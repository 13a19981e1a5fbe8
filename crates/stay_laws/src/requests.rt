//! How requests stand after a step.

ghost use Rattle.std.specs.Prelude.{◌≡◌, ℕ, ◌+◌, ◌∷◌, [], Bool, true, List, Option, Some, length};
ghost use Rattle.book_model.specs.Steps.{built_events, ended, parked_events};
ghost use Rattle.journal_model.specs.Extents.{Extents};
ghost use Rattle.journal_model.specs.Legal.{after_all, after_start, is_open, may_start};
ghost use Rattle.journal_model.specs.State.{State, numbered};
ghost use Rattle.journal_model.specs.declared.event.Event.TheVariants.{Deploy, Take};
ghost use Rattle.journal_model.specs.declared.state.RequestState.{RequestState};
ghost use Rattle.journal_model.specs.declared.state.Standing.TheVariants.{Answered, Open, Wanted};
ghost use Rattle.service_model.specs.Going.{wanted_events};
ghost use Rattle.service_model.specs.Staying.{TurnsOnly, WasStarted};

/// A start adds one request, which is open, and leaves all others. What serves a request leaves it
/// open, and an answer, or a want of memory, closes it; all others stay, and so do all where a
/// layer is built, or nothing happens.
pub fn requests_open_and_close()
    ensures started { (sizes : Extents) (s : State) (i f k : ℕ) →
        may_start sizes s i f k ≡ true → WasStarted i f k s (after_start s f k) }
    ensures taken { (sizes : Extents) (s : State) (c i : ℕ) (t : State) →
        after_all sizes s (Take c i ∷ []) ≡ Some t → TurnsOnly i Open s t }
    ensures deployed { (sizes : Extents) (s : State) (c : ℕ) (from : Option ℕ) (i n : ℕ)
        (t : State) → after_all sizes s (Deploy c from i n ∷ []) ≡ Some t →
        TurnsOnly i Open s t }
    ensures parked { (sizes : Extents) (s : State) (i c u : ℕ) (last : Option ℕ) (t : State) →
        after_all sizes s (parked_events i c u 0 last) ≡ Some t → TurnsOnly i Answered s t }
    ensures over { (sizes : Extents) (s : State) (i c u : ℕ) (t : State) →
        after_all sizes s (ended i c (Some u)) ≡ Some t → TurnsOnly i Answered s t }
    ensures wanted { (sizes : Extents) (s : State) (i : ℕ) (context : Option ℕ) (t : State) →
        after_all sizes s (wanted_events i context) ≡ Some t → TurnsOnly i Wanted s t }
    ensures built { (sizes : Extents) (s : State) (c k d : ℕ) (twice : Bool) (last : Option ℕ)
        (t : State) → after_all sizes s (built_events c k d twice last) ≡ Some t →
        t.requests ≡ s.requests }
    ensures stays { (i : ℕ) (s t : State) → is_open s i ≡ true → t.requests ≡ s.requests →
        TurnsOnly i Open s t }
{}
