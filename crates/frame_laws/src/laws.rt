//! Laws of the steps. A function here does nothing: its contract is the law.

ghost use Rattle.std.specs.Prelude.{◌≡◌, ℕ, ◌∷◌};
ghost use Rattle.frame_model.specs.declared.kind.Kind.{Kind};
ghost use Rattle.frame_model.specs.declared.view.View.{View};
ghost use Rattle.frame_model.specs.Views.{Has, Names, words_of, reach, part_of, IsSound};
ghost use Rattle.frame_words.specs.declared.part.Part.{Part};
ghost use Rattle.frame_words.specs.Steps.{put, dressed, kept_of, given_of, joined};
ghost use Rattle.frame_steps.specs.declared.lost.Lost.{Lost};
ghost use Rattle.frame_steps.specs.Counted.{entered, gained, lost};

/// A store, a kind and an entry go to a frame that is owned, and change what is known of no other.
pub fn owned_words_alone_change()
    ensures put { (v : View) (f i x g : ℕ) → Has f v.owned → (Has g v.owned → ⊥)
        → words_of (put v f i x) g ≡ words_of v g }
    ensures dressed { (v : View) (f : ℕ) (kind : Kind) (g : ℕ) → Has f v.owned
        → (Has g v.owned → ⊥) → words_of (dressed v f kind) g ≡ words_of v g }
    ensures entered { (v : View) (f i x g : ℕ) → Has f v.owned → (Has g v.owned → ⊥)
        → words_of (entered v f i x) g ≡ words_of v g }
{}

/// References that come and go change what is known of no frame.
pub fn references_change_no_word()
    ensures gained { (v : View) (f g : ℕ) → words_of (gained v f) g ≡ words_of v g }
    ensures lost { (o : Lost) (v : View) (f g : ℕ) → words_of (lost o v f) g ≡ words_of v g }
{}

/// Both holders of a split know what the one knew.
pub fn cut_views_know_what_was_known()
    ensures kept { (part : Part) (v : View) (g : ℕ) → words_of (kept_of part v) g ≡ words_of v g }
    ensures given { (part : Part) (v : View) (g : ℕ) → words_of (given_of part v) g ≡ words_of v g }
{}

/// After a join the holder knows of each frame in its reach what it knew, and of the others in the
/// other's reach what the other knew.
pub fn joined_views_know_what_was_known()
    ensures own { (v w : View) (g : ℕ) → Has g (reach v)
        → words_of (joined v w) g ≡ words_of v g }
    ensures other { (v w : View) (g : ℕ) → (Has g (reach v) → ⊥) → Has g (reach w)
        → words_of (joined v w) g ≡ words_of w g }
{}

/// A gain of a frame that isn't owned gives up nothing. Of what a table names that a holder
/// reaches and doesn't own, it owns nothing.
pub fn gains_of_shared_frames_give_up_nothing()
    ensures gained { (v : View) (f : ℕ) → (Has f v.owned → ⊥)
        → gained v f ≡ part_of v v.owned (f ∷ v.references) v.stake }
    ensures child { (v : View) → IsSound v → (g f : ℕ) → Has g (reach v) → (Has g v.owned → ⊥)
        → Names v g f → Has f v.owned → ⊥ }
{}
