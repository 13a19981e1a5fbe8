//! Whole batches that are right.

ghost use Rattle.std.specs.Prelude.{◌≡◌, ℕ, List, Option, Some, false, length, true};
ghost use Rattle.batch_model.specs.Events.{BuildsRightly, ParksSoFar};
ghost use Rattle.batch_model.specs.Fits.{AreStarted, IsRight};
ghost use Rattle.batch_model.specs.Replies.{AreLinesFrom};
ghost use Rattle.batch_model.specs.Setting.{Setting, given_of, sizes_of};
ghost use Rattle.book_log.specs.Logged.{IsLogged};
ghost use Rattle.book_log.specs.declared.started.Started.{Started};
ghost use Rattle.journal_model.specs.Extents.{Extents};
ghost use Rattle.journal_model.specs.Legal.{IsWhole, after_all, at_first, is_open_standing};
ghost use Rattle.journal_model.specs.Legal.{owes_nothing};
ghost use Rattle.journal_model.specs.State.{State, numbered};
ghost use Rattle.journal_model.specs.declared.answer.Answer.{Answer};
ghost use Rattle.journal_model.specs.declared.event.Event.{Event};
ghost use Rattle.journal_model.specs.declared.state.RequestState.{RequestState};
ghost use Rattle.line_laws.specs.Asked.{AreAsked};
ghost use Rattle.request_lines.specs.declared.request.Request.{Request};
ghost use Rattle.service_model.specs.Going.{given_in};
ghost use Rattle.service_model.specs.Staying.{IsSettled};
ghost use Rattle.space_api.specs.declared.given.Given.{Given};

/// A settled state in which no request is open is whole. Where what was started are these requests,
/// each with its packet, each is given its packet and the clock of its start, and is there for its
/// function. A whole journal of them, over copied pages, with a line of each and what parks and
/// builds rightly, is a right batch.
pub fn batches_are_right()
    ensures whole { (s : State) → IsSettled s →
        ((i : ℕ) (r : RequestState) → numbered s.requests i ≡ Some r →
        is_open_standing r.standing ≡ false) → IsWhole s }
    ensures given { (sizes : Extents) (events : List Event) (s : State) (started : List Started)
        (requests : List Request) → IsLogged sizes events s started →
        AreAsked requests started → (i : ℕ) → given_in started i ≡ given_of requests s i }
    ensures started { (sizes : Extents) (events : List Event) (s : State)
        (started : List Started) (requests : List Request) → IsLogged sizes events s started →
        AreAsked requests started → AreStarted requests s.requests }
    ensures right { (setting : Setting) (requests : List Request) (answers : List Answer)
        (events : List Event) (s : State) (given : ℕ → Option Given) →
        after_all (sizes_of setting requests) (at_first (sizes_of setting requests)) events
        ≡ Some s → owes_nothing s.owed ≡ true → IsWhole s → AreStarted requests s.requests →
        length answers ≡ length s.requests → AreLinesFrom setting.plan given s 1 answers →
        ((i : ℕ) → given i ≡ given_of requests s i) →
        ParksSoFar setting.plan.numbers answers events → BuildsRightly setting.plan events →
        setting.root ≡ 0 → IsRight setting requests answers events s }
{}
