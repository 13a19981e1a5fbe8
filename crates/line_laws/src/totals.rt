//! The totals of a batch.

ghost use Rattle.std.specs.Prelude.{◌≡◌, ℕ, List, Option, Some, count_by, length};
ghost use Rattle.batch_model.specs.Replies.{AreLinesOf};
ghost use Rattle.journal_model.specs.Extents.{Extents};
ghost use Rattle.journal_model.specs.Legal.{after_all, at_first, is_cold, is_hot, is_warm};
ghost use Rattle.journal_model.specs.Legal.{is_without, totals};
ghost use Rattle.journal_model.specs.State.{State};
ghost use Rattle.journal_model.specs.declared.answer.Answer.{Answer};
ghost use Rattle.journal_model.specs.declared.event.Event.{Event};
ghost use Rattle.plan_model.specs.Outline.{Outline};
ghost use Rattle.space_api.specs.declared.given.Given.{Given};

/// A journal's totals count the lines of its requests, each way, and over copied pages every frame
/// is free.
pub fn totals_are_counted()
    ensures counted { (plan : Outline) (given : ℕ → Option Given) (s : State)
        (answers : List Answer) → AreLinesOf plan given s answers →
        totals s ≡ record {
          requests = length answers;
          cold = count_by (λ (a : Answer). is_cold a.how) answers;
          warm = count_by (λ (a : Answer). is_warm a.how) answers;
          hot = count_by (λ (a : Answer). is_hot a.how) answers;
          none = count_by (λ (a : Answer). is_without a.how) answers;
          free = s.free;
        } }
    ensures free { (sizes : Extents) (events : List Event) (s : State) → sizes.root ≡ 0 →
        after_all sizes (at_first sizes) events ≡ Some s → s.free ≡ sizes.frames }
{}
