//! Laws of steps of many holders, one after the other.

ghost use Rattle.std.specs.Prelude.{◌≡◌, ℕ, ◌≤◌, List};
ghost use Rattle.frame_model.specs.declared.holding.Holding.{Holding};
ghost use Rattle.frame_model.specs.Views.{Has, reach};
ghost use Rattle.frame_model.specs.Rule.{most_frames};
ghost use Rattle.frame_words.specs.Plays.{Kept};
ghost use Rattle.frame_laws.specs.History.{Table, Turn, Holds, MayTake, MayTakeAll, after};
ghost use Rattle.frame_laws.specs.History.{after_all, new_table, Spends, IsSharedBefore, IsSame};

/// A step of each of the eight kinds keeps the rule, and so do any number of them, of whatever
/// holders. So the rule holds of each table after each step, from its opening on.
pub fn steps_keep_the_rule()
    ensures one { (n : ℕ) (s : Table) (t : Turn) → Kept n s → MayTake s t → Kept n (after s t) }
    ensures many { (n : ℕ) (s : Table) (ts : List Turn) → Kept n s → MayTakeAll s ts
        → Kept n (after_all s ts) }
    ensures new { (n : ℕ) (ts : List Turn) → n ≤ most_frames → MayTakeAll (new_table n) ts
        → Kept n (after_all (new_table n) ts) }
{}

/// A step changes the words and the kind of no frame but one that its holder owns, and of none
/// that another holder reaches. It changes what no other holder has, but a join spends one.
pub fn steps_change_owned_frames_alone()
    ensures mine { (n : ℕ) (s : Table) (t : Turn) → Kept n s → MayTake s t
        → (f : ℕ) → (Has f t.holding.view.owned → ⊥) → IsSame s (after s t) f }
    ensures others { (n : ℕ) (s : Table) (t : Turn) → Kept n s → MayTake s t
        → (id : ℕ) (h : Holding) → Holds s id h → (t.id ≡ id → ⊥)
        → (f : ℕ) → Has f (reach h.view) → IsSame s (after s t) f }
    ensures holders { (s : Table) (t : Turn) → (id : ℕ) (h : Holding) → Holds s id h
        → (t.id ≡ id → ⊥) → (Spends t.step id → ⊥) → Holds (after s t) id h }
{}

/// Whatever steps whatever holders take, a frame has at the end the words and the kind that it had
/// at the start, where one holder reaches it and doesn't own it before each of the steps.
pub fn shared_frames_stay()
    ensures { (n : ℕ) (s : Table) (ts : List Turn) → Kept n s → MayTakeAll s ts
        → (id f : ℕ) → IsSharedBefore s ts id f → IsSame s (after_all s ts) f }
{}
