//! Contexts that are parked.

ghost use Rattle.std.specs.Prelude.{◌≡◌, ℕ, ◌+◌, ◌∷◌, List, Some, true};
ghost use Rattle.journal_model.specs.Extents.{Extents};
ghost use Rattle.journal_model.specs.State.{State, numbered};
ghost use Rattle.journal_model.specs.Legal.{after, owes_nothing, first_for};
ghost use Rattle.journal_model.specs.declared.event.Event.TheVariants.{Answer, Park};
ghost use Rattle.journal_model.specs.declared.state.ContextState.{ContextState};
ghost use Rattle.journal_model.specs.declared.state.Duty.TheVariants.{Idle};

/// A context that answered was used once more; one that is parked is the first that is idle, so the
/// next for its function; all else of it is as it was.
pub fn parked_contexts_are_next()
    ensures answered { (sizes : Extents) (s : State) (i c u : ℕ) (t : State)
        (x : ContextState) → after sizes s (Answer i c u) ≡ Some t →
        numbered s.contexts c ≡ Some x →
        numbered t.contexts c ≡ Some (record x { used = u + 1 }) }
    ensures parked { (sizes : Extents) (s : State) (c : ℕ) (t : State) (x : ContextState) →
        after sizes s (Park c) ≡ Some t → numbered s.contexts c ≡ Some x →
        (t.idle ≡ c ∷ s.idle) × (numbered t.contexts c ≡ Some (record x { duty = Idle }))
        × (owes_nothing t.owed ≡ true) }
    ensures next { (sizes : Extents) (s : State) (c : ℕ) (t : State) (x : ContextState) →
        after sizes s (Park c) ≡ Some t → numbered s.contexts c ≡ Some x →
        first_for x.function t.contexts t.idle ≡ Some c }
    ensures first { (s : State) (c : ℕ) (rest : List ℕ) (x : ContextState) →
        s.idle ≡ c ∷ rest → numbered s.contexts c ≡ Some x →
        first_for x.function s.contexts s.idle ≡ Some c }
{}
