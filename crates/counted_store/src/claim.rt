//! What a space or frozen memory holds of the whole.

ghost use Rattle.std.specs.Prelude.{◌≡◌, ◌+◌, ◌-◌, ◌<◌, ◌≤◌, true, false, if◌then◌else◌};

use crate::shelf::CountedShelf;
use crate::spares::CountedSpares;
use std::mem;
use std::sync::ledger::{Ledger, Share};

/// A stake and a span: so many parts of the ledger, and so many frames. Where it is pinned the
/// shelf has them, and the numbers say what comes back.
#[derive(Drop)]
pub struct Claim<L: Ledger> {
    pub share: Share<L>,
    pub stake: u32,
    pub span: u32,
    pub pinned: bool,
    ghost some: { 0 < stake },
    ghost parts: { pinned ≡ false → share.parts ≡ stake },
    ghost amount: { pinned ≡ false → share.amount ≡ span },
}

impl<L: Ledger> Claim<L> {
    ghost use Rattle.space_api.specs.Holding.{with_note, with_returned};
    ghost use Rattle.counted_store.specs.Shelf.{stocked_of};

    /// Of a share.
    pub fn of(share: Share<L>, stake: u32, span: u32) -> Claim<L>
        requires some { 0 < stake }
        requires parts { share.parts ≡ stake }
        requires amount { share.amount ≡ span }
        ensures stake { result.stake ≡ stake }
        ensures span { result.span ≡ span }
        ensures pinned { result.pinned ≡ false }
    {
        Claim {
            share,
            stake,
            span,
            pinned: false,
        }
    }

    /// All of it, as spares.
    pub fn free(self) -> CountedSpares<L>
        requires { self.pinned ≡ false }
        ensures stake { result.share.parts ≡ self.stake }
        ensures frames { result.frames ≡ self.span }
    {
        let Claim {
            share,
            stake: _,
            span,
            pinned: _,
        } = self;
        CountedSpares {
            share,
            frames: span,
        }
    }

    /// A part of it, with a stake of 1 and so many frames.
    pub fn split(&mut self, frames: u32) -> Share<L>
        requires loose { self.old.pinned ≡ false }
        requires stake { 2 ≤ self.old.stake }
        requires frames { frames ≤ self.old.span }
        ensures parts { result.parts ≡ 1 }
        ensures amount { result.amount ≡ frames }
        ensures stake { self.new.stake + 1 ≡ self.old.stake }
        ensures span { self.new.span + frames ≡ self.old.span }
        ensures pinned { self.new.pinned ≡ false }
    {
        self.stake -= 1;
        self.span -= frames;
        self.share.split_off(1, u64::from(frames))
    }

    /// So many free frames more.
    pub fn fill(&mut self, shelf: &mut CountedShelf<L>, frames: u32)
        requires loose { self.old.pinned ≡ false }
        requires stake { shelf.old.tally.values < shelf.old.pool.parts }
        requires frames { frames ≤ shelf.old.tally.free }
        ensures stake { self.new.stake ≡ self.old.stake }
        ensures span { self.new.span ≡ self.old.span + frames }
        ensures pinned { self.new.pinned ≡ false }
        ensures gave { stocked_of shelf.old.tally shelf.old.pool.parts shelf.old.total.parts
            shelf.old.total.amount
            ≡ with_returned frames 0 (stocked_of shelf.new.tally shelf.new.pool.parts
            shelf.new.total.parts shelf.new.total.amount) }
    {
        shelf.give(&mut self.share, frames);
        shelf.total.audit(&mut self.share);
        self.span += frames;
    }

    /// Pins it.
    pub fn pin(&mut self, shelf: &mut CountedShelf<L>, image: bool)
        requires { self.old.pinned ≡ false }
        ensures stake { self.new.stake ≡ self.old.stake }
        ensures span { self.new.span ≡ self.old.span }
        ensures pinned { self.new.pinned ≡ true }
        ensures noted { stocked_of shelf.new.tally shelf.new.pool.parts shelf.new.total.parts
            shelf.new.total.amount
            ≡ record (with_returned 0 (self.old.stake - 1) (stocked_of shelf.old.tally
            shelf.old.pool.parts shelf.old.total.parts shelf.old.total.amount)) {
              notes = with_note image self.old.span (stocked_of shelf.old.tally
                  shelf.old.pool.parts shelf.old.total.parts shelf.old.total.amount).notes;
            } }
    {
        let empty = self.share.empty();
        let share = mem::replace(&mut self.share, empty);
        self.pinned = true;
        shelf.note(share, image, self.span);
    }

    /// Unpins it.
    pub fn unpin(&mut self, shelf: &mut CountedShelf<L>, image: bool)
        requires pinned { self.old.pinned ≡ true }
        requires stake { self.old.stake + 1 + shelf.old.tally.values ≤ shelf.old.pool.parts }
        requires noted { 1 ≤ shelf.old.tally.values }
        requires alike { (if image then 1 else 0) ≤ shelf.old.tally.images }
        requires unmarked { image ≡ false →
            shelf.old.tally.images + 1 ≤ shelf.old.tally.values }
        requires span { self.old.span ≤ shelf.old.tally.spans }
        ensures stake { self.new.stake ≡ self.old.stake }
        ensures span { self.new.span ≡ self.old.span }
        ensures loose { self.new.pinned ≡ false }
        ensures was { stocked_of shelf.old.tally shelf.old.pool.parts shelf.old.total.parts
            shelf.old.total.amount
            ≡ record (with_returned 0 (self.old.stake - 1) (stocked_of shelf.new.tally
            shelf.new.pool.parts shelf.new.total.parts shelf.new.total.amount)) {
              notes = with_note image self.old.span (stocked_of shelf.new.tally
                  shelf.new.pool.parts shelf.new.total.parts shelf.new.total.amount).notes;
            } }
    {
        let moved = self.stake - 1;
        self.share = shelf.forget(image, moved, self.span);
        self.pinned = false;
    }
}
