//! The shelf.

ghost use Rattle.std.specs.Prelude.{◌≡◌, ◌+◌, ◌-◌, ◌^◌, ◌<◌, ◌≤◌, Bool, false, if◌then◌else◌};
ghost use Rattle.space_api.specs.Holding.{free_limit};

use crate::tally::Tally;
use crate::whole::Whole;
use space_api::{Held, Stock};
use std::sync::ledger::{Blank, Ledger, Share, Total};

/// The stake that an opened image and a deployed space begin with.
pub(crate) const FIRST_STAKE: u32 = 1_048_576;

/// The free frames, with the stakes and the frames of all pinned values, and the frames of all
/// images that were opened.
#[derive(Drop)]
pub struct CountedShelf<L: Ledger> {
    pub(crate) tally: Tally,
    pub(crate) total: Total<L>,
    pub(crate) pool: Share<L>,
    whole: Whole<L>,
    ghost few: { total.amount ≤ free_limit },
    ghost within: { pool.amount ≤ total.amount },
    ghost pooled: { pool.amount ≡ tally.free + tally.spans + tally.sunk },
    ghost noted: { tally.values ≤ pool.parts },
    ghost images_noted: { tally.images ≤ tally.values },
    ghost opened_few: { tally.opened ≤ tally.sunk },
}

impl<L: Ledger> CountedShelf<L> {
    ghost use Rattle.space_api.specs.Holding.{Gave, IsOpened, IsWeighed, first_stake, with_note};
    ghost use Rattle.space_api.specs.Holding.{with_returned};
    ghost use Rattle.counted_store.specs.Shelf.{fresh, stocked_of};
    ghost use Rattle.std.specs.Prelude.{true};

    /// A shelf with so many free frames, over a ledger of its own with so many parts.
    pub fn new(frames: u32, parts: u64, blank: Blank) -> CountedShelf<L>
        requires name { blank.name ≡ L.name }
        requires blank_parts { blank.parts ≡ L.parts }
        requires parts { parts ≡ L.parts }
        requires some { 0 < parts }
        requires few { frames ≤ free_limit }
        ensures { stocked_of result.tally result.pool.parts result.total.parts result.total.amount
            ≡ fresh frames parts }
    {
        let (mut book, mut pool) = blank.open::<L>();
        book.add(&mut pool, u64::from(frames));
        let total = book.close();
        CountedShelf {
            tally: Tally {
                free: frames,
                opened: 0,
                sunk: 0,
                values: 0,
                images: 0,
                spans: 0,
            },
            total,
            pool,
            whole: Whole::of(parts),
        }
    }

    /// So many free frames, with so much stake.
    pub(crate) fn take(&mut self, stake: u32, frames: u32) -> Share<L>
        requires stake { stake + self.old.tally.values < self.old.pool.parts }
        requires some { 0 < stake }
        requires frames { frames ≤ self.old.tally.free }
        ensures parts { result.parts ≡ stake }
        ensures amount { result.amount ≡ frames }
        ensures gave { Gave true frames stake
            (stocked_of self.old.tally self.old.pool.parts self.old.total.parts
            self.old.total.amount)
            (stocked_of self.new.tally self.new.pool.parts self.new.total.parts
            self.new.total.amount) }
    {
        self.tally.free -= frames;
        self.pool.split_off(u64::from(stake), u64::from(frames))
    }

    /// Moves so many free frames into another share.
    pub(crate) fn give(&mut self, share: &mut Share<L>, frames: u32)
        requires some { 0 < share.old.parts }
        requires stake { self.old.tally.values < self.old.pool.parts }
        requires frames { frames ≤ self.old.tally.free }
        ensures parts { share.new.parts ≡ share.old.parts }
        ensures amount { share.new.amount ≡ share.old.amount + frames }
        ensures gave { Gave true frames 0
            (stocked_of self.old.tally self.old.pool.parts self.old.total.parts
            self.old.total.amount)
            (stocked_of self.new.tally self.new.pool.parts self.new.total.parts
            self.new.total.amount) }
    {
        self.tally.free -= frames;
        self.pool.transfer(share, u64::from(frames));
    }

    /// The stake of an image that takes so many free frames, which never come back.
    pub(crate) fn open(&mut self, frames: u32) -> Share<L>
        requires stake { first_stake + self.old.tally.values < self.old.pool.parts }
        requires some { 0 < frames }
        requires frames { frames ≤ self.old.tally.free }
        ensures parts { result.parts ≡ first_stake }
        ensures amount { result.amount ≡ 0 }
        ensures opened { IsOpened true frames
            (stocked_of self.old.tally self.old.pool.parts self.old.total.parts
            self.old.total.amount)
            (stocked_of self.new.tally self.new.pool.parts self.new.total.parts
            self.new.total.amount) }
    {
        self.tally.free -= frames;
        self.tally.sunk += frames;
        self.tally.opened += 1;
        self.pool.split_off(u64::from(FIRST_STAKE), 0)
    }

    /// So many frames come back, with their stake.
    pub(crate) fn put(&mut self, share: Share<L>, frames: u32)
        requires { share.amount ≡ frames }
        ensures { stocked_of self.new.tally self.new.pool.parts self.new.total.parts
            self.new.total.amount
            ≡ with_returned frames share.parts (stocked_of self.old.tally self.old.pool.parts
            self.old.total.parts self.old.total.amount) }
    {
        self.pool.merge(share);
        self.total.audit(&mut self.pool);
        self.tally.free += frames;
    }

    /// Takes all that a value holds that is pinned, and notes it. The value keeps a stake of 1 by
    /// name.
    pub(crate) fn note(&mut self, share: Share<L>, image: bool, span: u32)
        requires some { 0 < share.parts }
        requires span { share.amount ≡ span }
        ensures { stocked_of self.new.tally self.new.pool.parts self.new.total.parts
            self.new.total.amount
            ≡ record (with_returned 0 (share.parts - 1) (stocked_of self.old.tally
            self.old.pool.parts self.old.total.parts self.old.total.amount)) {
              notes = with_note image span (stocked_of self.old.tally
                  self.old.pool.parts self.old.total.parts self.old.total.amount).notes;
            } }
    {
        self.pool.merge(share);
        self.total.audit(&mut self.pool);
        self.whole.fits();
        self.tally.values += 1;
        self.tally.images += u64::from(image);
        self.tally.spans += span;
    }

    /// What a pinned value of such a span gave comes back: so much stake beside the 1 that it
    /// kept by name.
    pub(crate) fn forget(&mut self, image: bool, moved: u32, span: u32) -> Share<L>
        requires stake { moved + 2 + self.old.tally.values ≤ self.old.pool.parts }
        requires noted { 1 ≤ self.old.tally.values }
        requires alike { (if image then 1 else 0) ≤ self.old.tally.images }
        requires unmarked { image ≡ false → self.old.tally.images + 1 ≤ self.old.tally.values }
        requires span { span ≤ self.old.tally.spans }
        ensures parts { result.parts ≡ moved + 1 }
        ensures amount { result.amount ≡ span }
        ensures was { stocked_of self.old.tally self.old.pool.parts self.old.total.parts
            self.old.total.amount
            ≡ record (with_returned 0 moved (stocked_of self.new.tally
            self.new.pool.parts self.new.total.parts self.new.total.amount)) {
              notes = with_note image span (stocked_of self.new.tally
                  self.new.pool.parts self.new.total.parts self.new.total.amount).notes;
            } }
    {
        self.tally.values -= 1;
        self.tally.images -= u64::from(image);
        self.tally.spans -= span;
        self.pool.split_off(u64::from(moved) + 1, u64::from(span))
    }

    /// Does nothing that is seen. Its contract tells how many frames there are beside the
    /// images'.
    pub(crate) fn weigh(&mut self)
        ensures weighed { IsWeighed (stocked_of self.old.tally self.old.pool.parts
            self.old.total.parts self.old.total.amount) }
        ensures kept { stocked_of self.new.tally self.new.pool.parts self.new.total.parts
            self.new.total.amount ≡ stocked_of self.old.tally self.old.pool.parts
            self.old.total.parts self.old.total.amount }
    {
        self.total.audit(&mut self.pool);
    }
}

impl<L: Ledger> Held for CountedShelf<L> {
    ghost use Rattle.std.specs.Prelude.{None};

    ghost stake = { λ shelf. shelf.pool.parts - shelf.tally.values };

    ghost span = { λ shelf. shelf.tally.free };

    ghost pin = { λ _. None };
}

impl<L: Ledger> Stock for CountedShelf<L> {
    ghost use Rattle.std.specs.Prelude.{refl};
    ghost use Rattle.std.proofs.Common.{rules, arith};
    ghost use Rattle.counted_store.specs.Shelf.{stocked_of};

    ghost stocked = { λ shelf. stocked_of shelf.tally shelf.pool.parts shelf.total.parts
        shelf.total.amount };

    fn free(&self) -> u32 {
        self.tally.free
    }

    ghost stake_is = { λ _. refl };

    ghost free_is_few = { λ shelf. omega (arith, shelf.few, shelf.within, shelf.pooled) };

    ghost shelf_is_free = { λ _. refl };
}
