//! What a batch asks of the events of a step.

ghost use Rattle.std.specs.Prelude.{◌≡◌, ℕ, ◌+◌, ◌++◌, ◌∷◌, [], Bool, true, false, List};
ghost use Rattle.std.specs.Prelude.{Option, Some};
ghost use Rattle.batch_model.specs.Events.{BuildsRightly, IsBuilt, ParksRightly, is_to_park};
ghost use Rattle.book_model.specs.Steps.{built_events, ended, parked_events};
ghost use Rattle.journal_model.specs.declared.event.Event.{Event};
ghost use Rattle.journal_model.specs.declared.event.Event.TheVariants.{Deploy, Start, Take};
ghost use Rattle.plan_model.specs.Outline.{Outline};
ghost use Rattle.plan_model.specs.declared.numbers.Numbers.{Numbers};
ghost use Rattle.service_model.specs.Going.{wanted_events};
ghost use Rattle.service_model.specs.Ticking.{BuildsTook, IsTaking};

/// A context that answered is parked rightly where it is parked and is to be, and where it is over
/// and isn't; no other step parks one. The layer that a step builds is built rightly where its run
/// wrote so many pages, and then all that the step builds took as many instructions as that run; no
/// other step builds one. What two journals build in a row took as many as both.
pub fn steps_park_and_build()
    ensures parked { (numbers : Numbers) (ok : ℕ → Bool) (i c u : ℕ) (last : Option ℕ) →
        is_to_park numbers ok i u ≡ true →
        ParksRightly numbers ok (parked_events i c u 0 last) }
    ensures over { (numbers : Numbers) (ok : ℕ → Bool) (i c u : ℕ) →
        is_to_park numbers ok i u ≡ false → ParksRightly numbers ok (ended i c (Some u)) }
    ensures others { (numbers : Numbers) (ok : ℕ → Bool) (i f k c n d : ℕ) (from : Option ℕ)
        (twice : Bool) (last context : Option ℕ) → ParksRightly numbers ok (Start i f k ∷ [])
        × ParksRightly numbers ok (Take c i ∷ [])
        × ParksRightly numbers ok (Deploy c from i n ∷ [])
        × ParksRightly numbers ok (built_events c k d twice last)
        × ParksRightly numbers ok (wanted_events i context) }
    ensures taking { (plan : Outline) (k d count c : ℕ) (twice : Bool) (last : Option ℕ) →
        IsTaking plan k d count →
        IsBuilt plan k d × BuildsTook plan (built_events c k d twice last) count }
    ensures none_took { (plan : Outline) (i f k c u n : ℕ) (from last context : Option ℕ) →
        BuildsTook plan (Start i f k ∷ []) 0 × BuildsTook plan (Take c i ∷ []) 0
        × BuildsTook plan (Deploy c from i n ∷ []) 0
        × BuildsTook plan (parked_events i c u 0 last) 0
        × BuildsTook plan (ended i c (Some u)) 0
        × BuildsTook plan (wanted_events i context) 0 }
    ensures took_right { (plan : Outline) (events : List Event) (total : ℕ) →
        BuildsTook plan events total → BuildsRightly plan events }
    ensures took_joined { (plan : Outline) (first later : List Event) (m n : ℕ) →
        BuildsTook plan first m → BuildsTook plan later n →
        BuildsTook plan (first ++ later) (m + n) }
{}
