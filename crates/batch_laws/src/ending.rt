//! The end of a batch.

ghost use Rattle.std.specs.Prelude.{◌≡◌, ℕ, ◌+◌, ◌++◌, ◌∷◌, [], List, Option, length};
ghost use Rattle.batch_laws.specs.SoFar.{AreInOrder, IsSoFar, copied_setting, with_line};
ghost use Rattle.batch_model.specs.Fits.{IsRight};
ghost use Rattle.book_model.specs.Shared.{Shared};
ghost use Rattle.journal_model.specs.State.{numbered};
ghost use Rattle.journal_model.specs.declared.answer.Answer.{Answer};
ghost use Rattle.plan_model.specs.Outline.{Outline};
ghost use Rattle.request_lines.specs.declared.request.Request.{Request};

/// Where each of the requests has its line, the batch is right. The lines of a list, by their
/// places from 1, with that of the next request, are those of the list to which that was added.
pub fn lines_make_a_batch<C, L, H>()
    ensures right { (plan : Outline) (requests : List Request) (answers : ℕ → Option Answer)
        (took : ℕ) (lines : List Answer) (book : Shared C L H) →
        IsSoFar plan requests answers took book → AreInOrder requests answers lines →
        IsRight (copied_setting plan) requests lines book.events book.state }
    ensures pushed { (lines : List Answer) (answer : Answer) →
        with_line (length lines + 1) answer (numbered lines) ≡ numbered (lines ++ answer ∷ []) }
    ensures listed { (requests : List Request) (lines : List Answer) →
        length lines ≡ length requests → AreInOrder requests (numbered lines) lines }
{}
