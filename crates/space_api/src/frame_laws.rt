//! Laws of frames: how many a set of pages takes, and what parts of a run spend. A function here
//! does nothing: its contract is the law.

ghost use Rattle.std.specs.Prelude.{◌≡◌, ℕ, ◌+◌, ◌≤◌, ◌<◌, ◌↔◌, Bool, true};
ghost use Rattle.image_model.specs.Pages.{page_limit};
ghost use Rattle.machine_model.specs.Loaded.{no_page};
ghost use Rattle.machine_model.specs.Machine.{count_below, with_written};
ghost use Rattle.space_api.specs.Frames.{spans_at, frames_of, need, LacksFrames, Spent};

/// Each page is a span of its own, and a set with more pages takes no fewer frames. No page takes
/// none.
pub fn frames_rise()
    ensures pages { (written : ℕ → Bool) →
        spans_at 0 written ≡ count_below written page_limit }
    ensures more { (before after : ℕ → Bool) →
        ((page : ℕ) → before page ≡ true → after page ≡ true) →
        frames_of before ≤ frames_of after }
    ensures none { frames_of no_page ≡ 0 }
{}

/// A write that needs more frames than there are spares lacks frames, and one that spends at most
/// as many spares as it needs spends no more than frames.
pub fn need_is_of_frames()
    ensures lacks { (takes : Bool) (spares : ℕ) (written : ℕ → Bool) (at n : ℕ) →
        (spares < need takes written at n)
        ↔ LacksFrames takes spares written (with_written at n written) }
    ensures spent { (takes : Bool) (written : ℕ → Bool) (at n old new : ℕ) → new ≤ old →
        old ≤ new + need takes written at n →
        Spent takes old written new (with_written at n written) }
{}

/// What two parts spend, one after the other, is what the whole spends.
pub fn parts_spend_together()
    ensures { (takes : Bool) (a : ℕ) (before : ℕ → Bool) (b : ℕ) (mid : ℕ → Bool) (c : ℕ)
        (after : ℕ → Bool) → Spent takes a before b mid → Spent takes b mid c after →
        Spent takes a before c after }
{}
