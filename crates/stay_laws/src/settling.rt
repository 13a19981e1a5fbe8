//! Each context that serves serves an open request.

ghost use Rattle.std.specs.Prelude.{◌≡◌, ℕ, ◌∷◌, [], Bool, true, List, Option, None, Some};
ghost use Rattle.book_model.specs.Steps.{built_events, ended, parked_events};
ghost use Rattle.journal_model.specs.Extents.{Extents};
ghost use Rattle.journal_model.specs.Legal.{after_all, after_start, at_first, is_waiting};
ghost use Rattle.journal_model.specs.Legal.{may_start};
ghost use Rattle.journal_model.specs.State.{State};
ghost use Rattle.journal_model.specs.declared.event.Event.{Event};
ghost use Rattle.journal_model.specs.declared.event.Event.TheVariants.{Deploy, Take};
ghost use Rattle.journal_model.specs.declared.state.ContextState.{ContextState};
ghost use Rattle.service_laws.specs.Serving.{IsServing};
ghost use Rattle.service_model.specs.Going.{wanted_events};
ghost use Rattle.service_model.specs.Staying.{IsSettled};

/// At first no context serves, and after each step of a service each one that serves serves an open
/// request, where that was so before. `first` are the events that led to where the step was taken.
pub fn services_stay_settled()
    ensures first { (sizes : Extents) → IsSettled (at_first sizes) }
    ensures started { (sizes : Extents) (s : State) (i f k : ℕ) → IsSettled s →
        may_start sizes s i f k ≡ true → IsSettled (after_start s f k) }
    ensures taken { (sizes : Extents) (s : State) (c i : ℕ) (t : State) → IsSettled s →
        after_all sizes s (Take c i ∷ []) ≡ Some t → IsSettled t }
    ensures deployed { (sizes : Extents) (s : State) (c : ℕ) (from : Option ℕ) (i n : ℕ)
        (t : State) → IsSettled s → after_all sizes s (Deploy c from i n ∷ []) ≡ Some t →
        IsSettled t }
    ensures built { (sizes : Extents) (s : State) (c k d : ℕ) (twice : Bool) (last : Option ℕ)
        (t : State) → IsSettled s →
        after_all sizes s (built_events c k d twice last) ≡ Some t → IsSettled t }
    ensures parked { (sizes : Extents) (first : List Event) (s : State) (i c u : ℕ)
        (last : Option ℕ) (t : State) → after_all sizes (at_first sizes) first ≡ Some s →
        IsSettled s → after_all sizes s (parked_events i c u 0 last) ≡ Some t → IsSettled t }
    ensures over { (sizes : Extents) (first : List Event) (s : State) (i c u : ℕ) (t : State) →
        after_all sizes (at_first sizes) first ≡ Some s → IsSettled s →
        after_all sizes s (ended i c (Some u)) ≡ Some t → IsSettled t }
    ensures wanted { (sizes : Extents) (first : List Event) (s : State) (i c : ℕ)
        (x : ContextState) (t : State) → after_all sizes (at_first sizes) first ≡ Some s →
        IsSettled s → IsServing s i c x →
        after_all sizes s (wanted_events i (Some c)) ≡ Some t → IsSettled t }
    ensures unserved { (sizes : Extents) (first : List Event) (s : State) (i : ℕ) (t : State) →
        after_all sizes (at_first sizes) first ≡ Some s → IsSettled s →
        is_waiting s i ≡ true → after_all sizes s (wanted_events i None) ≡ Some t →
        IsSettled t }
{}
