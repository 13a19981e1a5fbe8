//! What holds of every state that a journal reaches.

ghost use Rattle.std.specs.Prelude.{◌≡◌, ◌↔◌, ◌+◌, ◌≤◌, ◌<◌, ℕ, List, ◌++◌, ◌∷◌, [], Some, None};
ghost use Rattle.std.specs.Prelude.{length, true};
ghost use Rattle.journal_model.specs.Extents.{Extents};
ghost use Rattle.journal_model.specs.State.{State, numbered, contains};
ghost use Rattle.journal_model.specs.Legal.{after, after_all, at_first, is_open, given_to};
ghost use Rattle.journal_model.specs.Legal.{serves, answered_by, place_of, place_of_given};
ghost use Rattle.journal_model.specs.Reads.{served, earlier, service_of, place_at_end, answer_from};
ghost use Rattle.journal_model.specs.declared.event.Event.{Event};
ghost use Rattle.journal_model.specs.declared.event.Event.TheVariants.{Answer, Refuse, Want};
ghost use Rattle.journal_model.specs.declared.state.RequestState.{RequestState};
ghost use Rattle.journal_model.specs.declared.state.ContextState.{ContextState};
ghost use Rattle.journal_model.specs.declared.state.Duty.TheVariants.{Idle};
ghost use Rattle.journal_laws.specs.Rests.{IsRested};
ghost use Rattle.journal_laws.specs.Served.{with_answer};

/// No more contexts are drawn than requests started.
pub fn contexts_are_few()
    ensures { (sizes : Extents) (events : List Event) (s : State) →
        after_all sizes (at_first sizes) events ≡ Some s →
        length s.contexts ≤ length s.requests }
{}

/// An open request was given a context exactly where that context serves it; and was given it when
/// it had answered as many requests as it has now, so that the earlier ones are all that it served.
pub fn open_requests_are_served()
    ensures served { (sizes : Extents) (events : List Event) (s : State) (i c : ℕ) →
        after_all sizes (at_first sizes) events ≡ Some s → is_open s i ≡ true →
        (given_to s i ≡ Some c) ↔ (serves s c i ≡ true) }
    ensures earlier { (sizes : Extents) (events : List Event) (s : State) (i c : ℕ) →
        after_all sizes (at_first sizes) events ≡ Some s → is_open s i ≡ true →
        given_to s i ≡ Some c → earlier s i ≡ served s c }
{}

/// The idle contexts are those in the list. Each answered a request at least and fewer than it may,
/// and stands where it stood when it answered the last.
pub fn idle_contexts_are_listed()
    ensures listed { (sizes : Extents) (events : List Event) (s : State) (c : ℕ) →
        after_all sizes (at_first sizes) events ≡ Some s →
        (contains c s.idle ≡ true)
        ↔ ((x : ContextState) × (numbered s.contexts c ≡ Some x) × (x.duty ≡ Idle)) }
    ensures rested { (sizes : Extents) (events : List Event) (s : State) (c : ℕ) →
        after_all sizes (at_first sizes) events ≡ Some s → contains c s.idle ≡ true →
        IsRested sizes.uses s.requests s.contexts c }
{}

/// A context answered one request after as many others as are fewer than it answered in all, and
/// none after more; with an answer what it served grows by that request, and with no other event.
pub fn contexts_serve_in_order()
    ensures each { (sizes : Extents) (events : List Event) (s : State) (c v : ℕ) →
        after_all sizes (at_first sizes) events ≡ Some s → v < answered_by s c →
        (i : ℕ) × (answer_from c v 1 s.requests ≡ Some i) }
    ensures none { (sizes : Extents) (events : List Event) (s : State) (c v : ℕ) →
        after_all sizes (at_first sizes) events ≡ Some s → answered_by s c ≤ v →
        answer_from c v 1 s.requests ≡ None }
    ensures grows { (sizes : Extents) (events : List Event) (s t : State) (e : Event) (c : ℕ) →
        after_all sizes (at_first sizes) events ≡ Some s → after sizes s e ≡ Some t →
        served t c ≡ with_answer c e (served s c) }
{}

/// What came earlier than a request that was given a context stays, whatever comes later.
pub fn earlier_requests_stay()
    ensures { (sizes : Extents) (first later : List Event) (s t : State) (i c : ℕ) →
        after_all sizes (at_first sizes) first ≡ Some s → after_all sizes s later ≡ Some t →
        given_to s i ≡ Some c → earlier t i ≡ earlier s i }
{}

/// An answer of request `i` by context `c`, after `u` others, fixes what the request's line says:
/// that context and number, where the context stood, and what it served before.
pub fn answers_fix_the_line()
    ensures line { (sizes : Extents) (events : List Event) (s t : State) (i c u : ℕ) →
        after_all sizes (at_first sizes) events ≡ Some s →
        after sizes s (Answer i c u) ≡ Some t →
        (service_of t i ≡ service_of s i) × ((service_of t i).context ≡ c)
        × ((service_of t i).used ≡ u) }
    ensures place { (sizes : Extents) (events : List Event) (s t : State) (i c u : ℕ) →
        after_all sizes (at_first sizes) events ≡ Some s →
        after sizes s (Answer i c u) ≡ Some t → place_at_end t i ≡ place_of s c }
    ensures earlier { (sizes : Extents) (events : List Event) (s t : State) (i c u : ℕ) →
        after_all sizes (at_first sizes) events ≡ Some s →
        after sizes s (Answer i c u) ≡ Some t → earlier t i ≡ served s c }
{}

/// A request that is refused or wanted keeps what its line says of its context; its place is where
/// that stands, if it has one.
pub fn refusals_fix_the_line()
    ensures refused { (sizes : Extents) (s t : State) (i : ℕ) →
        after sizes s (Refuse i) ≡ Some t → (service_of t i ≡ service_of s i)
        × (place_at_end t i ≡ place_of_given s (given_to s i)) }
    ensures wanted { (sizes : Extents) (s t : State) (i : ℕ) →
        after sizes s (Want i) ≡ Some t → (service_of t i ≡ service_of s i)
        × (place_at_end t i ≡ place_of_given s (given_to s i)) }
{}
