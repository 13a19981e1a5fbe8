//! Requests that contexts serve.

ghost use Rattle.std.specs.Prelude.{◌≡◌, ℕ, ◌+◌, ◌++◌, ◌∷◌, [], List, Option, Some, length};
ghost use Rattle.std.specs.Prelude.{true, false};
ghost use Rattle.std.specs.List.{list_any};
ghost use Rattle.journal_model.specs.Extents.{Extents};
ghost use Rattle.journal_model.specs.State.{State, numbered, stack_of, layer_above};
ghost use Rattle.journal_model.specs.Names.{names_request, names_context};
ghost use Rattle.journal_model.specs.Legal.{after, after_all, at_first, owes_nothing, above};
ghost use Rattle.journal_model.specs.Legal.{may_answer, may_build, request_function};
ghost use Rattle.journal_model.specs.Reads.{served};
ghost use Rattle.journal_model.specs.declared.event.Event.{Event};
ghost use Rattle.journal_model.specs.declared.event.Event.TheVariants.{Take, Deploy, Built, Keep};
ghost use Rattle.journal_model.specs.declared.event.Event.TheVariants.{Dup, Drop, Answer, Want};
ghost use Rattle.journal_model.specs.declared.event.Event.TheVariants.{Refuse, End};
ghost use Rattle.journal_model.specs.declared.state.ContextState.{ContextState};
ghost use Rattle.journal_model.specs.declared.state.Duty.TheVariants.{Serves};
ghost use Rattle.service_laws.specs.Serving.{IsAtWork, IsServing, deployed_context};
ghost use Rattle.service_laws.specs.Serving.{is_answer_by};

/// A context that was taken serves its request then, is for that request's function and is else as
/// it was; so does one that was deployed, which is new. The request's function stays. What serves a
/// request may answer it, after as many as it was used for.
pub fn contexts_serve_what_they_are_given()
    ensures taken { (sizes : Extents) (s : State) (c i : ℕ) (t : State) (x : ContextState) →
        after sizes s (Take c i) ≡ Some t → numbered s.contexts c ≡ Some x →
        IsServing t i c (record x { duty = Serves i }) × (x.function ≡ request_function s i)
        × (request_function t i ≡ request_function s i) }
    ensures deployed { (sizes : Extents) (s : State) (c : ℕ) (k : Option ℕ) (i n : ℕ)
        (t : State) → after sizes s (Deploy c k i n) ≡ Some t →
        IsServing t i c (deployed_context s k i)
        × (request_function t i ≡ request_function s i) }
    ensures answers { (s : State) (i c : ℕ) (x : ContextState) → IsServing s i c x →
        may_answer s i c x.used ≡ true }
{}

/// A context served as many requests as it was used for. What it served is nothing where it is
/// deployed, grows by the request that it answers, and stays with events that are no answer by it,
/// as where it is taken.
pub fn served_requests_are_counted()
    ensures count { (sizes : Extents) (events : List Event) (s : State) (c : ℕ)
        (x : ContextState) → after_all sizes (at_first sizes) events ≡ Some s →
        numbered s.contexts c ≡ Some x → length (served s c) ≡ x.used }
    ensures taken { (sizes : Extents) (events : List Event) (s : State) (c i : ℕ) (t : State) →
        after_all sizes (at_first sizes) events ≡ Some s →
        after sizes s (Take c i) ≡ Some t → served t c ≡ served s c }
    ensures deployed { (sizes : Extents) (s : State) (c : ℕ) (k : Option ℕ) (i n : ℕ)
        (t : State) → after sizes s (Deploy c k i n) ≡ Some t → served t c ≡ [] }
    ensures stays { (sizes : Extents) (first : List Event) (s : State) (later : List Event)
        (t : State) (c : ℕ) → after_all sizes (at_first sizes) first ≡ Some s →
        after_all sizes s later ≡ Some t → list_any (is_answer_by c) later ≡ false →
        served t c ≡ served s c }
    ensures answered { (sizes : Extents) (events : List Event) (s : State) (i c u : ℕ)
        (t : State) → after_all sizes (at_first sizes) events ≡ Some s →
        after sizes s (Answer i c u) ≡ Some t → served t c ≡ served s c ++ i ∷ [] }
{}

/// A context that serves a request may be captured as the layer above its place. It stands there
/// then, serves on, and is else as it was, whether the layer is kept, was kept already, or another
/// goes for it; what is above it is what is above that layer.
pub fn layers_leave_a_service()
    ensures may { (sizes : Extents) (s : State) (i c k : ℕ) (x : ContextState) →
        IsServing s i c x → layer_above x.layer (stack_of sizes x.function) ≡ Some k →
        may_build sizes s c k ≡ true }
    ensures kept { (sizes : Extents) (s : State) (c k d : ℕ) (t : State) (i : ℕ)
        (x : ContextState) → after_all sizes s (Built c k d ∷ Keep k ∷ []) ≡ Some t →
        IsAtWork s i c x → IsServing t i c (record x { layer = Some k }) }
    ensures twice { (sizes : Extents) (s : State) (c k d : ℕ) (t : State) (i : ℕ)
        (x : ContextState) → after_all sizes s (Built c k d ∷ Dup k ∷ []) ≡ Some t →
        IsAtWork s i c x → IsServing t i c (record x { layer = Some k }) }
    ensures dropped { (sizes : Extents) (s : State) (c k d j : ℕ) (t : State) (i : ℕ)
        (x : ContextState) → after_all sizes s (Built c k d ∷ Drop j ∷ Keep k ∷ []) ≡ Some t →
        IsAtWork s i c x → IsServing t i c (record x { layer = Some k }) }
    ensures above { (sizes : Extents) (s : State) (c : ℕ) (x : ContextState) →
        numbered s.contexts c ≡ Some x →
        above sizes s c ≡ layer_above x.layer (stack_of sizes x.function) }
{}

/// Events that name neither a context nor the request that it serves leave it serving where nothing
/// is owed after them; those that don't name a request leave its function.
pub fn others_leave_a_service()
    ensures serves { (sizes : Extents) (s : State) (events : List Event) (t : State) (i c : ℕ)
        (x : ContextState) → after_all sizes s events ≡ Some t →
        list_any (names_request i) events ≡ false → list_any (names_context c) events ≡ false →
        owes_nothing t.owed ≡ true → IsServing s i c x → IsServing t i c x }
    ensures function { (sizes : Extents) (s : State) (events : List Event) (t : State) (i : ℕ) →
        after_all sizes s events ≡ Some t → list_any (names_request i) events ≡ false →
        request_function t i ≡ request_function s i }
{}

/// A context that serves a request may answer and be over; it may be over where its request found
/// no memory, or was refused.
pub fn services_end()
    ensures answered { (sizes : Extents) (s : State) (i c : ℕ) (x : ContextState) →
        IsServing s i c x → (t : State)
        × (after_all sizes s (Answer i c x.used ∷ End c ∷ []) ≡ Some t) }
    ensures wanted { (sizes : Extents) (s : State) (i c : ℕ) (x : ContextState) (t : State) →
        IsServing s i c x → after sizes s (Want i) ≡ Some t →
        (u : State) × (after_all sizes t (End c ∷ []) ≡ Some u) }
    ensures refused { (sizes : Extents) (s : State) (i c : ℕ) (x : ContextState) (t : State) →
        IsServing s i c x → after sizes s (Refuse i) ≡ Some t →
        (u : State) × (after_all sizes t (End c ∷ []) ≡ Some u) }
{}
