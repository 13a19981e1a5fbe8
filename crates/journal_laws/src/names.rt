//! What events leave as it is.

ghost use Rattle.std.specs.Prelude.{◌≡◌, ℕ, List, Some, false};
ghost use Rattle.std.specs.List.{list_any};
ghost use Rattle.journal_model.specs.Extents.{Extents};
ghost use Rattle.journal_model.specs.State.{State, numbered};
ghost use Rattle.journal_model.specs.Legal.{after, after_all, is_open_standing};
ghost use Rattle.journal_model.specs.Names.{names_request, names_context};
ghost use Rattle.journal_model.specs.declared.event.Event.{Event};
ghost use Rattle.journal_model.specs.declared.state.RequestState.{RequestState};

/// Events that don't name a request leave it as it is, and so do those that don't name a context.
pub fn events_leave_what_they_do_not_name()
    ensures request { (sizes : Extents) (s : State) (events : List Event) (t : State) (i : ℕ) →
        after_all sizes s events ≡ Some t → list_any (names_request i) events ≡ false →
        numbered t.requests i ≡ numbered s.requests i }
    ensures context { (sizes : Extents) (s : State) (events : List Event) (t : State) (c : ℕ) →
        after_all sizes s events ≡ Some t → list_any (names_context c) events ≡ false →
        numbered t.contexts c ≡ numbered s.contexts c }
{}

/// A request that was answered, refused or wanted is named by no later event, and stays as it is.
pub fn closed_requests_stay()
    ensures unnamed { (sizes : Extents) (s : State) (event : Event) (t : State) (i : ℕ)
        (request : RequestState) → after sizes s event ≡ Some t →
        numbered s.requests i ≡ Some request → is_open_standing request.standing ≡ false →
        names_request i event ≡ false }
    ensures stays { (sizes : Extents) (s : State) (events : List Event) (t : State) (i : ℕ)
        (request : RequestState) → after_all sizes s events ≡ Some t →
        numbered s.requests i ≡ Some request → is_open_standing request.standing ≡ false →
        numbered t.requests i ≡ Some request }
{}
