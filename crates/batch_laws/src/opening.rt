//! Where a batch begins, and how its requests are started.

ghost use Rattle.std.specs.Prelude.{◌≡◌, ℕ, ◌+◌, ◌≤◌, [], List, Option, None, length, true};
ghost use Rattle.batch_laws.specs.SoFar.{IsNext, IsSoFar, copied_setting};
ghost use Rattle.batch_model.specs.Setting.{sizes_of};
ghost use Rattle.book_log.specs.declared.started.Started.{Started};
ghost use Rattle.book_model.specs.Kept.{most_requests};
ghost use Rattle.book_model.specs.Shared.{Shared};
ghost use Rattle.journal_model.specs.Legal.{at_first, may_start};
ghost use Rattle.journal_model.specs.declared.answer.Answer.{Answer};
ghost use Rattle.plan_model.specs.Outline.{Outline};
ghost use Rattle.request_lines.specs.declared.request.Request.{Request};
ghost use Rattle.request_service.specs.Starting.{Starts};
ghost use Rattle.request_service.specs.declared.service.Unserved.{Unserved};

/// A book that was just opened for these requests is a batch that has come nowhere: it has no line,
/// and nothing was built. The next of the requests may be started, and then the batch has come as
/// far, with the same lines.
pub fn requests_are_started_in_order<C, L, H>()
    ensures opened { (plan : Outline) (requests : List Request) (answers : ℕ → Option Answer)
        (book : Shared C L H) → book.sizes ≡ sizes_of (copied_setting plan) requests →
        book.events ≡ [] → book.state ≡ at_first book.sizes → book.started ≡ [] →
        length requests ≤ most_requests → ((i : ℕ) → answers i ≡ None) →
        IsSoFar plan requests answers 0 book }
    ensures may { (plan : Outline) (requests : List Request) (answers : ℕ → Option Answer)
        (took : ℕ) (book : Shared C L H) (one : Started) →
        IsSoFar plan requests answers took book → IsNext plan requests one book →
        may_start book.sizes book.state (length book.started + 1) one.function one.given.clock
        ≡ true }
    ensures started { (plan : Outline) (requests : List Request) (answers : ℕ → Option Answer)
        (took : ℕ) (one : Started) (request : Unserved) (old new : Shared C L H) →
        IsSoFar plan requests answers took old → IsNext plan requests one old →
        Starts one request old new → IsSoFar plan requests answers took new }
{}
