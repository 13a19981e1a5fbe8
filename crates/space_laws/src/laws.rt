//! A function here does nothing: its contract is the law.

ghost use Rattle.std.specs.Prelude.{◌≡◌, ℕ, ◌+◌, ◌^◌, ◌≤◌, ◌<◌, Bool, true, false, None};
ghost use Rattle.image_model.specs.Pages.{page_of, page_limit};
ghost use Rattle.machine_model.specs.Hypercall.{packet_limit};
ghost use Rattle.machine_model.specs.Machine.{address, least_failing, with_written, count_below};
ghost use Rattle.space_api.specs.Flat.{Flat, is_writable};
ghost use Rattle.space_api.specs.Frames.{frames_of, need};
ghost use Rattle.space_laws.specs.Growth.{GrowsWithin, with_page, with_pages, pages_across};
ghost use Rattle.space_laws.specs.Growth.{page_need, write_need};

/// A page more takes one frame for itself, where it's new, and one for each of its two spans that
/// is new. Where it's there already, nothing changes.
pub fn page_more()
    ensures new { (written : ℕ → Bool) (page : ℕ) → page < page_limit →
        frames_of (with_page page written) ≡ frames_of written + page_need written page }
    ensures there { (written : ℕ → Bool) (page : ℕ) → written page ≡ true →
        frames_of (with_page page written) ≡ frames_of written }
{}

/// A write of bytes that don't go round adds the pages that they lie on, one after another.
pub fn write_adds_row()
    ensures none { (written : ℕ → Bool) (first page : ℕ) →
        with_pages first 0 written page ≡ written page }
    ensures more { (written : ℕ → Bool) (first n page : ℕ) →
        with_pages first (n + 1) written page
        ≡ with_page (first + n) (with_pages first n written) page }
    ensures write { (written : ℕ → Bool) (at n page : ℕ) → 0 < n → at + n ≤ 2 ^ 64 →
        with_written at n written page
        ≡ with_pages (page_of at) (pages_across at n) written page }
{}

/// A write of no bytes needs no frames, nor does one whose pages are all written; a byte more
/// needs no fewer.
pub fn need_rises()
    ensures none { (takes : Bool) (written : ℕ → Bool) (at : ℕ) →
        need takes written at 0 ≡ 0 }
    ensures there { (takes : Bool) (written : ℕ → Bool) (at n : ℕ) →
        ((i : ℕ) → i < n → written (page_of (address at i)) ≡ true) →
        need takes written at n ≡ 0 }
    ensures more { (takes : Bool) (written : ℕ → Bool) (at n : ℕ) →
        need takes written at n ≤ need takes written at (n + 1) }
{}

/// A set that grows within k + 1 numbers counts at most k + 1 more.
pub fn few_more()
    ensures { (before after : ℕ → Bool) (a k : ℕ) → GrowsWithin before after a k →
        (n : ℕ) → count_below after n ≤ count_below before n + (k + 1) }
{}

/// A write of at most 32,768 bytes, each of which may be written, takes at most 13 frames, where
/// nothing may be written at or above 2^38.
pub fn write_takes_few()
    ensures frames { (flat : Flat) (at n : ℕ) →
        ((page : ℕ) → page_limit ≤ page → (flat.permissions page).writable ≡ false) →
        least_failing (is_writable flat) at n ≡ None → n ≤ packet_limit →
        frames_of (with_written at n flat.written) ≤ frames_of flat.written + write_need }
    ensures need { (takes : Bool) (flat : Flat) (at n : ℕ) →
        ((page : ℕ) → page_limit ≤ page → (flat.permissions page).writable ≡ false) →
        least_failing (is_writable flat) at n ≡ None → n ≤ packet_limit →
        need takes flat.written at n ≤ write_need }
{}
