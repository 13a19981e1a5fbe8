//! What a step of one service leaves of the others.

ghost use Rattle.std.specs.Prelude.{◌≡◌, ℕ, Bool, List, [], ◌∷◌, Option, Some, IfSome, true};
ghost use Rattle.book_model.specs.Steps.{built_events, parked_events, ended};
ghost use Rattle.journal_model.specs.Extents.{Extents};
ghost use Rattle.journal_model.specs.State.{State};
ghost use Rattle.journal_model.specs.Legal.{after_all, at_first, may_start, after_start};
ghost use Rattle.journal_model.specs.declared.event.Event.{Event};
ghost use Rattle.journal_model.specs.declared.event.Event.TheVariants.{Take, Deploy};
ghost use Rattle.journal_model.specs.declared.state.ContextState.{ContextState};
ghost use Rattle.service_laws.specs.Serving.{IsServing};
ghost use Rattle.service_model.specs.Going.{wanted_events};
ghost use Rattle.service_model.specs.Staying.{LeavesOthers};

/// Each step of the service of one request leaves every other service: its context serves it as it
/// did and served what it had served, and its request is what it was. So do no step, and one step
/// after another. `first` are the events that led to where the step was taken.
pub fn steps_leave_others()
    ensures nothing { (i : ℕ) (s : State) → LeavesOthers i s s }
    ensures joined { (i : ℕ) (s t u : State) → LeavesOthers i s t → LeavesOthers i t u →
        LeavesOthers i s u }
    ensures started { (sizes : Extents) (first : List Event) (s : State) (i f k : ℕ) →
        after_all sizes (at_first sizes) first ≡ Some s → may_start sizes s i f k ≡ true →
        LeavesOthers i s (after_start s f k) }
    ensures taken { (sizes : Extents) (first : List Event) (s : State) (c i : ℕ) (t : State) →
        after_all sizes (at_first sizes) first ≡ Some s →
        after_all sizes s (Take c i ∷ []) ≡ Some t → LeavesOthers i s t }
    ensures deployed { (sizes : Extents) (first : List Event) (s : State) (c : ℕ) (k : Option ℕ)
        (i n : ℕ) (t : State) → after_all sizes (at_first sizes) first ≡ Some s →
        after_all sizes s (Deploy c k i n ∷ []) ≡ Some t → LeavesOthers i s t }
    ensures built { (sizes : Extents) (first : List Event) (s : State) (c k d : ℕ) (twice : Bool)
        (last : Option ℕ) (t : State) (i : ℕ) (x : ContextState) →
        after_all sizes (at_first sizes) first ≡ Some s →
        after_all sizes s (built_events c k d twice last) ≡ Some t → IsServing s i c x →
        LeavesOthers i s t }
    ensures parked { (sizes : Extents) (first : List Event) (s : State) (i c u : ℕ)
        (last : Option ℕ) (t : State) → after_all sizes (at_first sizes) first ≡ Some s →
        after_all sizes s (parked_events i c u 0 last) ≡ Some t → LeavesOthers i s t }
    ensures ended { (sizes : Extents) (first : List Event) (s : State) (i c u : ℕ) (t : State) →
        after_all sizes (at_first sizes) first ≡ Some s →
        after_all sizes s (ended i c (Some u)) ≡ Some t → LeavesOthers i s t }
    ensures wanted { (sizes : Extents) (first : List Event) (s : State) (i : ℕ)
        (context : Option ℕ) (t : State) → after_all sizes (at_first sizes) first ≡ Some s →
        after_all sizes s (wanted_events i context) ≡ Some t →
        IfSome context (λ (c : ℕ). (x : ContextState) × IsServing s i c x) → LeavesOthers i s t }
{}
