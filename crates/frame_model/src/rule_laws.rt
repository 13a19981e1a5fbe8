//! Laws of the rule of shared frames. A function here does nothing: its contract is the law.

ghost use Rattle.std.specs.Prelude.{◌≡◌, ℕ, ◌+◌, ◌*◌, ◌^◌, ◌<◌, ◌≤◌, List, [], ◌∷◌, replicate};
ghost use Rattle.frame_model.specs.declared.view.View.{View};
ghost use Rattle.frame_model.specs.Words.{Frames, frames_in, kind_at, kind_number, count_at};
ghost use Rattle.frame_model.specs.Views.{Has, kind_of, known_of, word_of, targets_of, reach};
ghost use Rattle.frame_model.specs.Views.{IsLoose, IsSound, OwnsDataAlone, first_view};
ghost use Rattle.frame_model.specs.Views.{name_count, whole_stake};
ghost use Rattle.frame_model.specs.Rule.{At, NoOtherReaches, most_frames, FrameRule};

/// A frame that one view owns is in no other view's reach.
pub fn owned_frames_are_apart()
    ensures { (n : ℕ) (m : Frames) (views : List View) → FrameRule n m views
        → (id other : ℕ) (v w : View) → At views id v → At views other w → (id ≡ other → ⊥)
        → (f : ℕ) → Has f v.owned → Has f (reach w) → ⊥ }
{}

/// A frame of count 0 has one owner.
pub fn uncounted_frames_have_one_owner()
    ensures some { (n : ℕ) (m : Frames) (views : List View) → FrameRule n m views
        → (f : ℕ) → f < n → count_at m f ≡ 0
        → (id : ℕ) × (v : View) × At views id v × Has f v.owned }
    ensures one { (n : ℕ) (m : Frames) (views : List View) → FrameRule n m views
        → (id other : ℕ) (v w : View) → At views id v → At views other w
        → (f : ℕ) → Has f v.owned → Has f w.owned → id ≡ other }
{}

/// What a view says of its reach is what the words hold.
pub fn views_tell_the_words()
    ensures kinds { (n : ℕ) (m : Frames) (views : List View) → FrameRule n m views
        → (id : ℕ) (v : View) → At views id v → (f : ℕ) → Has f (reach v)
        → kind_at m f ≡ kind_number (kind_of v f) }
    ensures words { (n : ℕ) (m : Frames) (views : List View) → FrameRule n m views
        → (id : ℕ) (v : View) → At views id v → (f i : ℕ) → Has f (reach v) → i < 512
        → m.word f i ≡ word_of v f i }
{}

/// Each frame is in the reach of a view, which has a stake.
pub fn every_frame_is_reached()
    ensures { (n : ℕ) (m : Frames) (views : List View) → FrameRule n m views
        → (f : ℕ) → f < n
        → (id : ℕ) × (v : View) × At views id v × (0 < v.stake) × Has f (reach v) }
{}

/// A view that owns data alone and refers to nothing owns exactly the frames that no other view
/// reaches.
pub fn lone_owners_have_what_no_other_reaches()
    ensures own { (n : ℕ) (m : Frames) (views : List View) → FrameRule n m views
        → (id : ℕ) (v : View) → At views id v → OwnsDataAlone v
        → (f : ℕ) → Has f v.owned → (f < n) × NoOtherReaches views id f }
    ensures rest { (n : ℕ) (m : Frames) (views : List View) → FrameRule n m views
        → (id : ℕ) (v : View) → At views id v → OwnsDataAlone v
        → (f : ℕ) → f < n → NoOtherReaches views id f → Has f v.owned }
{}

/// Such a view with the whole stake owns every frame, each of data and of count 0.
pub fn whole_stakes_own_all()
    ensures { (n : ℕ) (m : Frames) (views : List View) → FrameRule n m views
        → (id : ℕ) (v : View) → At views id v → OwnsDataAlone v → v.stake ≡ whole_stake
        → (f : ℕ) → f < n → IsLoose v f × (kind_at m f ≡ 0) × (count_at m f ≡ 0) }
{}

/// A count has room for one more: it stays below 2^56, and its meta word below 2^64.
pub fn counts_never_wrap()
    ensures { (n : ℕ) (m : Frames) (views : List View) → FrameRule n m views
        → (f : ℕ) → f < n → (count_at m f + 1 < 2 ^ 56) × (m.meta f + 256 < 2 ^ 64) }
{}

/// Each view is sound by itself: its reach lies in the table, and each word of a table that it
/// reaches is 0 or an entry of that table's kind, whose target has the kind below.
pub fn views_are_sound()
    ensures { (n : ℕ) (m : Frames) (views : List View) → FrameRule n m views
        → (id : ℕ) (v : View) → At views id v → IsSound v }
{}

/// Three links are enough: a sound view reaches what the links of the frames that it reaches
/// name.
pub fn reach_is_closed()
    ensures { (v : View) → IsSound v → (f g : ℕ) → Has f (reach v)
        → Has g (targets_of (known_of v.known f)) → Has g (reach v) }
{}

/// An owner's view tells where a frame's count is 0.
pub fn loose_frames_are_uncounted()
    ensures { (n : ℕ) (m : Frames) (views : List View) → FrameRule n m views
        → (id : ℕ) (v : View) → At views id v → (f : ℕ) → IsLoose v f → count_at m f ≡ 0 }
{}

/// A count is at least the number of a view's references to the frame and of the entries of tables
/// that it owns which name it, and of a frame that it owns just that number.
pub fn views_tell_counts()
    ensures least { (n : ℕ) (m : Frames) (views : List View) → FrameRule n m views
        → (id : ℕ) (v : View) → At views id v → (f : ℕ) → f < n
        → name_count v f ≤ count_at m f }
    ensures own { (n : ℕ) (m : Frames) (views : List View) → FrameRule n m views
        → (id : ℕ) (v : View) → At views id v → (f : ℕ) → Has f v.owned
        → count_at m f ≡ name_count v f }
{}

/// The rule holds of a new table, whose words are 0 and whose one view owns all frames.
pub fn new_tables_meet_the_rule()
    ensures { (n : ℕ) → n ≤ most_frames
        → FrameRule n (frames_in (replicate (n * 513) 0)) (first_view n ∷ []) }
{}
