//! Laws of journals. A function here does nothing: its contract is the law.

ghost use Rattle.std.specs.Prelude.{◌≡◌, ◌≢◌, ℕ, ◌+◌, ◌<◌, ◌≤◌, List, ◌++◌, Some, None, length};
ghost use Rattle.std.specs.Prelude.{take};
ghost use Rattle.std.specs.Prelude.{true, false, slice_index_or};
ghost use Rattle.journal_model.specs.Bounds.{HasRooms, ServesOnce};
ghost use Rattle.journal_model.specs.Extents.{Extents};
ghost use Rattle.journal_model.specs.State.{State};
ghost use Rattle.journal_model.specs.Frames.{frames_taken, frames_back};
ghost use Rattle.journal_model.specs.Legal.{after, after_all, at_first, owes_nothing, IsLegal};
ghost use Rattle.journal_model.specs.Legal.{judged, totals};
ghost use Rattle.journal_model.specs.declared.event.Event.{Event};
ghost use Rattle.journal_model.specs.declared.state.Totals.{Totals};
ghost use Rattle.journal_model.specs.declared.state.Judged.TheVariants.{Legal, Broken};

/// The beginning of a legal journal is legal, where nothing is owed at its end.
pub fn beginnings_are_legal()
    ensures { (sizes : Extents) (a b : List Event) → IsLegal sizes (a ++ b) →
        (s : State) × (after_all sizes (at_first sizes) a ≡ Some s)
        × (owes_nothing s.owed ≡ true → IsLegal sizes a) }
{}

/// A verdict is `Legal`, with the totals of the state at the end, only of a legal journal.
/// It is `Broken` only at an event that may not stand after those before it, or at the end where
/// one is still owed.
pub fn verdicts_are_right()
    ensures legal { (sizes : Extents) (events : List Event) (found : Totals) →
        judged sizes events ≡ Legal found →
        (end : State) × (after_all sizes (at_first sizes) events ≡ Some end)
        × (owes_nothing end.owed ≡ true) × (totals end ≡ found) }
    ensures broken { (sizes : Extents) (events : List Event) (at : ℕ) →
        judged sizes events ≡ Broken at → (s : State) × (at ≤ length events)
        × (after_all sizes (at_first sizes) (take at events) ≡ Some s)
        × ((d : Event) → at < length events → after sizes s (slice_index_or events at d) ≡ None)
        × (at ≡ length events → owes_nothing s.owed ≡ false) }
{}

/// The free number falls by the frames that an event takes, of which each was free, and rises by
/// those that come back.
pub fn frames_are_counted()
    ensures { (sizes : Extents) (s t : State) (event : Event) → after sizes s event ≡ Some t →
        t.free + frames_taken event ≡ s.free + frames_back event }
{}

/// In each state that is reached, the idle contexts and the kept layers have their rooms, and none
/// stands twice among them; a request is served by one context at most, and a context serves one
/// request at most.
pub fn states_are_sound()
    ensures rooms { (sizes : Extents) (events : List Event) (s : State) →
        after_all sizes (at_first sizes) events ≡ Some s → HasRooms sizes s }
    ensures once { (sizes : Extents) (events : List Event) (s : State) →
        after_all sizes (at_first sizes) events ≡ Some s → ServesOnce s }
{}
