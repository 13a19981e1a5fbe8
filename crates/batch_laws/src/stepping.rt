//! The steps of a service.

ghost use Rattle.std.specs.Prelude.{◌≡◌, ℕ, ◌+◌, ◌≤◌, List, Option, None, length, true};
ghost use Rattle.batch_laws.specs.SoFar.{IsSoFar, with_line};
ghost use Rattle.book_model.specs.Shared.{Shared};
ghost use Rattle.journal_model.specs.Legal.{is_open};
ghost use Rattle.journal_model.specs.State.{numbered};
ghost use Rattle.journal_model.specs.declared.answer.Answer.{Answer};
ghost use Rattle.journal_model.specs.declared.event.Event.{Event};
ghost use Rattle.plan_model.specs.Outline.{Outline};
ghost use Rattle.request_lines.specs.declared.request.Request.{Request};
ghost use Rattle.request_service.specs.Turns.{Closes, Goes};

/// A step of a service after which its request is still open leaves the lines as they are, and the
/// layers that it builds took more instructions; one that closes its request adds its line. A
/// request that is open, or was not started, has no line, and one that is open is one of the
/// requests.
pub fn steps_keep_a_batch<C, L, H>()
    ensures goes { (plan : Outline) (requests : List Request) (answers : ℕ → Option Answer)
        (took i more : ℕ) (events : List Event) (old new : Shared C L H) →
        IsSoFar plan requests answers took old → Goes plan i events more old new →
        IsSoFar plan requests answers (took + more) new }
    ensures closes { (plan : Outline) (requests : List Request) (answers : ℕ → Option Answer)
        (took i : ℕ) (answer : Answer) (events : List Event) (old new : Shared C L H) →
        IsSoFar plan requests answers took old → Closes plan i answer events old new →
        IsSoFar plan requests (with_line i answer answers) took new }
    ensures unanswered { (plan : Outline) (requests : List Request)
        (answers : ℕ → Option Answer) (took i : ℕ) (book : Shared C L H) →
        IsSoFar plan requests answers took book → is_open book.state i ≡ true →
        (answers i ≡ None) × (1 ≤ i) × (i ≤ length requests) }
    ensures unstarted { (plan : Outline) (requests : List Request)
        (answers : ℕ → Option Answer) (took i : ℕ) (book : Shared C L H) →
        IsSoFar plan requests answers took book → numbered book.state.requests i ≡ None →
        answers i ≡ None }
{}
