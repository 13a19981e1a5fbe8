//! Journals that are read one after another.

ghost use Rattle.std.specs.Prelude.{◌≡◌, ◌↔◌, List, ◌++◌, ◌∷◌, [], Some, option_and_then};
ghost use Rattle.journal_model.specs.Extents.{Extents};
ghost use Rattle.journal_model.specs.State.{State};
ghost use Rattle.journal_model.specs.Legal.{after, after_all, at_first, judged, totals, IsLegal};
ghost use Rattle.journal_model.specs.declared.event.Event.{Event};
ghost use Rattle.journal_model.specs.declared.state.Totals.{Totals};
ghost use Rattle.journal_model.specs.declared.state.Judged.TheVariants.{Legal};

/// The fold over events and then others is the fold over the others from where the first lead; and
/// one event more is one step more.
pub fn journals_follow_one_another()
    ensures joined { (sizes : Extents) (s : State) (a b : List Event) →
        after_all sizes s (a ++ b)
        ≡ option_and_then (λ t. after_all sizes t b) (after_all sizes s a) }
    ensures one { (sizes : Extents) (s t : State) (a : List Event) (e : Event) →
        after_all sizes s a ≡ Some t → after_all sizes s (a ++ e ∷ []) ≡ after sizes t e }
{}

/// A journal is legal, with the totals of the state at its end, exactly where its verdict says so.
pub fn legal_journals_are_judged_so()
    ensures { (sizes : Extents) (events : List Event) (found : Totals) →
        (judged sizes events ≡ Legal found)
        ↔ ((is : IsLegal sizes events) × (totals is.end ≡ found)) }
{}
