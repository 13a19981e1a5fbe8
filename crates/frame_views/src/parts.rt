//! What a holder owns and refers to after a step.

ghost use Rattle.std.specs.Prelude.{◌≡◌, ℕ, ◌-◌, ◌⊎◌, ◌∷◌, []};
ghost use Rattle.frame_model.specs.declared.frame.Frame.{Frame};
ghost use Rattle.frame_model.specs.declared.view.View.{View};
ghost use Rattle.frame_model.specs.Words.{target};
ghost use Rattle.frame_model.specs.Views.{Has, children, kind_of, words_of, word_of, reach};
ghost use Rattle.frame_model.specs.Views.{among, without, less_one, part_of, IsLoose, IsSound};
ghost use Rattle.frame_words.specs.declared.part.Part.TheVariants.{Pile, Root};
ghost use Rattle.frame_words.specs.Steps.{pile_of, tree_of, kept_of, given_of, joined};
ghost use Rattle.frame_steps.specs.declared.lost.Lost.{Lost};
ghost use Rattle.frame_steps.specs.declared.lost.Lost.TheVariants.{Owned, Shared};
ghost use Rattle.frame_steps.specs.Counted.{entered, MayStand, gained, lost};

/// A reference becomes the new entry, and what the old entry named becomes a reference. What else
/// had count 0 has it still.
pub fn entries_trade_references()
    ensures new { (v : View) (f i x : ℕ) → word_of v f i ≡ 0 → (x ≡ 0 → ⊥)
        → (entered v f i x).references ≡ less_one (target x) v.references }
    ensures old { (v : View) (f i : ℕ) → (word_of v f i ≡ 0 → ⊥)
        → (entered v f i 0).references ≡ target (word_of v f i) ∷ v.references }
    ensures both { (v : View) (f i x : ℕ) → (word_of v f i ≡ 0 → ⊥) → (x ≡ 0 → ⊥)
        → (entered v f i x).references
        ≡ target (word_of v f i) ∷ less_one (target x) v.references }
    ensures loose { (v : View) (f i x : ℕ) → MayStand v f x
        → (g : ℕ) → ((word_of v f i ≡ 0 → ⊥) → g ≡ target (word_of v f i) → ⊥)
        → IsLoose v g → IsLoose (entered v f i x) g }
{}

/// A gain gives up the tree of an owned frame that something names, and of others nothing.
pub fn gains_give_up_trees()
    ensures shared { (v : View) (f : ℕ) → (Has f v.owned → ⊥)
        → gained v f ≡ part_of v v.owned (f ∷ v.references) v.stake }
    ensures fresh { (v : View) (f : ℕ) → (Has f v.references → ⊥)
        → (Has f (children v.known v.owned) → ⊥)
        → gained v f ≡ part_of v v.owned (f ∷ v.references) v.stake }
    ensures named { (v : View) (f : ℕ) → Has f v.owned
        → Has f v.references ⊎ Has f (children v.known v.owned)
        → gained v f ≡ part_of v (without (tree_of v f) v.owned) (f ∷ v.references) v.stake }
    ensures loose { (v : View) (f g : ℕ) → (g ≡ f → ⊥) → IsLoose v g
        → IsLoose (part_of v v.owned (f ∷ v.references) v.stake) g }
{}

/// A lose takes a reference, and where it was the last name of a frame the holder owns it. What had
/// count 0 has it still.
pub fn loses_give_back()
    ensures shared { (v : View) (f : ℕ)
        → lost Shared v f ≡ part_of v v.owned (less_one f v.references) v.stake }
    ensures again { (v : View) (f : ℕ) → Has f v.owned
        → lost Owned v f ≡ part_of v v.owned (less_one f v.references) v.stake }
    ensures owned { (v : View) (f : ℕ) → (Has f v.owned → ⊥)
        → lost Owned v f ≡ part_of v (f ∷ v.owned) (less_one f v.references) v.stake }
    ensures loose { (o : Lost) (v : View) (f : ℕ) → IsSound v → Has f v.references
        → (g : ℕ) → IsLoose v g → IsLoose (lost o v f) g }
{}

/// The frames of a pile go, and nothing else.
pub fn piles_go_alone()
    ensures kept { (v : View) (first : Frame) (count stake : ℕ)
        → kept_of (Pile first count stake) v ≡ part_of v
        (without (pile_of v first.0 count) v.owned) v.references (v.stake - stake) }
    ensures given { (v : View) (first : Frame) (count stake : ℕ)
        → given_of (Pile first count stake) v ≡ part_of v
        (among (pile_of v first.0 count) v.owned) [] stake }
{}

/// A root that is owned goes with all that is owned below it, and one that isn't goes alone.
pub fn roots_go_whole()
    ensures kept { (v : View) (root : Frame) (stake : ℕ) → Has root.0 v.owned
        → kept_of (Root root stake) v ≡ part_of v (without (tree_of v root.0) v.owned)
        (without (root.0 ∷ []) v.references) (v.stake - stake) }
    ensures given { (v : View) (root : Frame) (stake : ℕ) → Has root.0 v.owned
        → given_of (Root root stake) v ≡ part_of v (among (tree_of v root.0) v.owned)
        (among (root.0 ∷ []) v.references) stake }
    ensures left { (v : View) (root : Frame) (stake : ℕ) → (Has root.0 v.owned → ⊥)
        → kept_of (Root root stake) v
        ≡ part_of v v.owned (less_one root.0 v.references) (v.stake - stake) }
    ensures alone { (v : View) (root : Frame) (stake : ℕ) → (Has root.0 v.owned → ⊥)
        → given_of (Root root stake) v ≡ part_of v [] (root.0 ∷ []) stake }
{}

/// After a join a holder knows of its reach what it knew, and of the rest of the other's reach
/// what the other knew. It reaches what either reached.
pub fn joins_keep_what_was_known()
    ensures own { (v w : View) (g : ℕ) → Has g (reach v)
        → (kind_of (joined v w) g ≡ kind_of v g) × (words_of (joined v w) g ≡ words_of v g) }
    ensures other { (v w : View) (g : ℕ) → (Has g (reach v) → ⊥) → Has g (reach w)
        → (kind_of (joined v w) g ≡ kind_of w g) × (words_of (joined v w) g ≡ words_of w g) }
    ensures reach { (v w : View) → IsSound v → IsSound w → (g : ℕ) → Has g (reach (joined v w))
        → Has g (reach v) ⊎ Has g (reach w) }
{}
