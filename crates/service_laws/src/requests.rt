//! Requests that are started.

ghost use Rattle.std.specs.Prelude.{◌≡◌, ◌+◌, ◌≤◌, ◌<◌, ℕ, length, true};
ghost use Rattle.journal_model.specs.Extents.{Extents};
ghost use Rattle.journal_model.specs.State.{State};
ghost use Rattle.journal_model.specs.Legal.{may_start, after_start, is_waiting, request_function};
ghost use Rattle.journal_model.specs.Legal.{owes_nothing, is_clock};

/// A request that was started waits for a context, and is for its function; the next one may be
/// started where nothing is owed, while there are requests left.
pub fn started_requests_wait()
    ensures waits { (sizes : Extents) (s : State) (i f t : ℕ) →
        may_start sizes s i f t ≡ true →
        (is_waiting (after_start s f t) i ≡ true)
        × (request_function (after_start s f t) i ≡ f) }
    ensures next { (sizes : Extents) (s : State) (i f t : ℕ) → owes_nothing s.owed ≡ true →
        i ≡ length s.requests + 1 → i ≤ sizes.requests → f < length sizes.stacks →
        is_clock sizes.clock t ≡ true → may_start sizes s i f t ≡ true }
{}
