//! What is known of the context that serves a request.

ghost use Rattle.std.specs.Prelude.{◌≡◌, ◌∷◌, [], ℕ, List, Option, Some, true};
ghost use Rattle.journal_model.specs.Extents.{Extents};
ghost use Rattle.journal_model.specs.Legal.{after_all, after_start, at_first, deployed_how};
ghost use Rattle.journal_model.specs.Legal.{may_start, request_function};
ghost use Rattle.journal_model.specs.Reads.{earlier, service_of, served};
ghost use Rattle.journal_model.specs.State.{State, numbered, stack_of};
ghost use Rattle.journal_model.specs.declared.answer.How.TheVariants as how;
ghost use Rattle.journal_model.specs.declared.event.Event.{Event};
ghost use Rattle.journal_model.specs.declared.event.Event.TheVariants.{Deploy, Take};
ghost use Rattle.journal_model.specs.declared.state.ContextState.{ContextState};
ghost use Rattle.service_laws.specs.Serving.{IsServing};

/// What a request's line says of its context is the context that serves it, and how often that was
/// used; what came earlier is all that it served. A context that was taken was idle, one that was
/// deployed is cold or warm by where it was made, and was never used; a request that was started
/// has none.
pub fn services_are_known()
    ensures known { (sizes : Extents) (first : List Event) (s : State) (i c : ℕ)
        (x : ContextState) → after_all sizes (at_first sizes) first ≡ Some s →
        IsServing s i c x → ((service_of s i).context ≡ c) × ((service_of s i).used ≡ x.used)
        × (earlier s i ≡ served s c) }
    ensures taken { (sizes : Extents) (s : State) (c i : ℕ) (t : State) (x : ContextState) →
        after_all sizes s (Take c i ∷ []) ≡ Some t → numbered s.contexts c ≡ Some x →
        service_of t i ≡ record { how = how.Hot; context = c; used = x.used } }
    ensures deployed { (sizes : Extents) (s : State) (c : ℕ) (k : Option ℕ) (i n : ℕ)
        (t : State) → after_all sizes s (Deploy c k i n ∷ []) ≡ Some t →
        service_of t i ≡ record {
          how = deployed_how (stack_of sizes (request_function s i)) k;
          context = c;
          used = 0;
        } }
    ensures started { (sizes : Extents) (s : State) (i f k : ℕ) →
        may_start sizes s i f k ≡ true →
        service_of (after_start s f k) i ≡ record { how = how.None; context = 0; used = 0 } }
{}
