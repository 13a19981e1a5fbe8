//! Laws of lines. A function here does nothing: its contract is the law.

ghost use Rattle.std.specs.Prelude.{◌≡◌, ℕ, List};
ghost use Rattle.journal_model.specs.Line.{IsEventLine};
ghost use Rattle.journal_model.specs.declared.event.Event.{Event};

/// A line is that of one event only. So `read_event` answers the event that was printed, where
/// its fields are as they may be.
pub fn lines_have_one_event()
    ensures { (line : List ℕ) (a b : Event) → IsEventLine line a → IsEventLine line b → a ≡ b }
{}
