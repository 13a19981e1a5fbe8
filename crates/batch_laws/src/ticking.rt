//! How many instructions a batch ticks.

ghost use Rattle.std.specs.Prelude.{◌≡◌, ℕ, ◌+◌, ◌≤◌, List, Option, None, All, length};
ghost use Rattle.std.specs.List.{sum_by};
ghost use Rattle.batch_laws.specs.SoFar.{AreInOrder, IsSoFar, with_line};
ghost use Rattle.batch_laws.specs.Ticks.{HasTicked};
ghost use Rattle.book_model.specs.Shared.{Shared};
ghost use Rattle.journal_model.specs.declared.answer.Answer.{Answer};
ghost use Rattle.plan_model.specs.Outline.{Outline};
ghost use Rattle.request_lines.specs.declared.request.Request.{Request};
ghost use Rattle.request_service.specs.Turns.{EndsByRun};

/// A batch with no line, of which nothing is under way, has ticked nothing. A turn that goes on
/// ticks what its layers took and what its run counts more; one that closes a request of its own
/// run ticks what is left of the line's steps. In the end the ticks are those of the layers that
/// were built and the steps of all lines, where each request ended by a run.
pub fn ticks_are_counted<C, L, H>()
    ensures nothing { (answers : ℕ → Option Answer) (n from : ℕ) →
        ((i : ℕ) → answers i ≡ None) → HasTicked answers n 0 0 from from }
    ensures goes { (answers : ℕ → Option Answer)
        (n took more before after others from earlier ticks : ℕ) →
        HasTicked answers n took (before + others) from earlier →
        ticks + before ≡ earlier + (more + after) →
        HasTicked answers n (took + more) (after + others) from ticks }
    ensures closes { (answers : ℕ → Option Answer) (answer : Answer)
        (i n took before others from earlier ticks : ℕ) → answers i ≡ None → 1 ≤ i → i ≤ n →
        HasTicked answers n took (before + others) from earlier →
        (EndsByRun answer.end → ticks + before ≡ earlier + answer.steps) →
        HasTicked (with_line i answer answers) n took others from ticks }
    ensures whole { (plan : Outline) (requests : List Request) (answers : ℕ → Option Answer)
        (took from ticks : ℕ) (lines : List Answer) (book : Shared C L H) →
        IsSoFar plan requests answers took book → AreInOrder requests answers lines →
        HasTicked answers (length requests) took 0 from ticks →
        All (λ (answer : Answer). EndsByRun answer.end) lines →
        ticks ≡ from + (took + sum_by (λ (answer : Answer). answer.steps) lines) }
{}
