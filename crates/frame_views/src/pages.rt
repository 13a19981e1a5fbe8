//! What is known of frames after a step that changes one of them.

ghost use Rattle.std.specs.Prelude.{◌≡◌, ℕ, ◌<◌, length};
ghost use Rattle.frame_model.specs.declared.kind.Kind.{Kind};
ghost use Rattle.frame_model.specs.declared.kind.Kind.TheVariants.{Data};
ghost use Rattle.frame_model.specs.declared.view.View.{View};
ghost use Rattle.frame_model.specs.Views.{kind_of, words_of, word_of, reach, IsLoose};
ghost use Rattle.frame_words.specs.Steps.{put, dressed, IsClear};
ghost use Rattle.frame_steps.specs.Counted.{entered};

/// A store changes one word, and no kind. Of a frame of data it changes no reach and no count.
pub fn puts_change_one_word()
    ensures here { (v : View) (f i x : ℕ) → i < length (words_of v f)
        → word_of (put v f i x) f i ≡ x }
    ensures rest { (v : View) (f i x g j : ℕ) → ((g ≡ f) × (j ≡ i) → ⊥)
        → word_of (put v f i x) g j ≡ word_of v g j }
    ensures kinds { (v : View) (f i x g : ℕ) → kind_of (put v f i x) g ≡ kind_of v g }
    ensures reach { (v : View) (f i x : ℕ) → kind_of v f ≡ Data
        → reach (put v f i x) ≡ reach v }
    ensures loose { (v : View) (f i x : ℕ) → kind_of v f ≡ Data
        → (g : ℕ) → IsLoose v g → IsLoose (put v f i x) g }
{}

/// A kind changes for one frame, and no word. Where the frame's words are 0 no reach
/// changes, and no count.
pub fn dresses_change_one_kind()
    ensures here { (v : View) (f : ℕ) (kind : Kind) → kind_of (dressed v f kind) f ≡ kind }
    ensures rest { (v : View) (f : ℕ) (kind : Kind) (g : ℕ) → (g ≡ f → ⊥)
        → kind_of (dressed v f kind) g ≡ kind_of v g }
    ensures words { (v : View) (f : ℕ) (kind : Kind) (g : ℕ)
        → words_of (dressed v f kind) g ≡ words_of v g }
    ensures reach { (v : View) (f : ℕ) (kind : Kind) → IsClear v f → length (words_of v f) ≡ 512
        → reach (dressed v f kind) ≡ reach v }
    ensures loose { (v : View) (f : ℕ) (kind : Kind) → IsClear v f → length (words_of v f) ≡ 512
        → (g : ℕ) → IsLoose v g → IsLoose (dressed v f kind) g }
{}

/// An entry changes one word, and no kind.
pub fn entries_change_one_word()
    ensures here { (v : View) (f i x : ℕ) → i < length (words_of v f)
        → word_of (entered v f i x) f i ≡ x }
    ensures rest { (v : View) (f i x g j : ℕ) → ((g ≡ f) × (j ≡ i) → ⊥)
        → word_of (entered v f i x) g j ≡ word_of v g j }
    ensures kinds { (v : View) (f i x g : ℕ) → kind_of (entered v f i x) g ≡ kind_of v g }
{}
