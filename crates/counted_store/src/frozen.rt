//! Frozen memory.

ghost use Rattle.std.specs.Prelude.{◌≡◌};
ghost use Rattle.plain_space.specs.PlainFrozen as frozen;
ghost use Rattle.counted_store.specs.Below.{IsBelow};

use crate::below::open_plain;
use crate::claim::Claim;
use crate::images::image_need;
use crate::shelf::{CountedShelf, FIRST_STAKE};
use plain_space::PlainFrozen;
use space_api::{FrozenMemory, Held, Memory, Refused, Start};
use std::alloc::Global;
use std::sync::ledger::Ledger;

/// Frozen memory over copied pages. Its span is 0: the frames of an opened image count for
/// themselves, and those of a space that was captured stay that space's.
#[derive(Drop)]
pub struct CountedFrozen<L: Ledger> {
    pub(crate) plain: PlainFrozen,
    pub(crate) image: bool,
    pub(crate) claim: Claim<L>,
    ghost below: { IsBelow (frozen.flat plain) },
}

impl<L: Ledger> CountedFrozen<L> {
    ghost use Rattle.std.specs.Prelude.{◌+◌, ◌<◌, true, false, IfOk, OnOk, OnErr};
    ghost use Rattle.space_api.specs.Flat.{flat_of};
    ghost use Rattle.space_api.specs.Holding.{first_stake, IsOpened};
    ghost use Rattle.space_api.specs.Stores.{image_frames, RefusesRightly};
    ghost use Rattle.counted_store.specs.Shelf.{stocked_of};

    /// The frozen memory of a start, whose frames the shelf gives.
    pub(crate) fn open(
        alloc: Global,
        shelf: &mut CountedShelf<L>,
        start: &Start,
    ) -> Result<CountedFrozen<L>, Refused>
        requires { first_stake + shelf.old.tally.values < shelf.old.pool.parts }
        ensures flat { IfOk result (λ image. frozen.flat image.plain ≡ flat_of start.now) }
        ensures image { IfOk result (λ image. image.image ≡ true) }
        ensures stake { IfOk result (λ image. image.claim.stake ≡ first_stake) }
        ensures span { IfOk result (λ image. image.claim.span ≡ 0) }
        ensures loose { IfOk result (λ image. image.claim.pinned ≡ false) }
        ensures opened { OnOk result (IsOpened true (image_frames start.now)
            (stocked_of shelf.old.tally shelf.old.pool.parts shelf.old.total.parts
            shelf.old.total.amount)
            (stocked_of shelf.new.tally shelf.new.pool.parts shelf.new.total.parts
            shelf.new.total.amount)) }
        ensures kept { OnErr result (shelf.new ≡ shelf.old) }
        ensures refused { RefusesRightly true true shelf.old.tally.free
            (image_frames start.now) result }
    {
        start.keeps_layout();
        let frames = image_need(start.pages());
        if u64::from(shelf.tally.free) < frames {
            return Err(Refused::Frames);
        }
        match open_plain(alloc, start) {
            Ok(plain) => Ok(CountedFrozen {
                plain,
                image: true,
                claim: Claim::of(shelf.open(frames as u32), FIRST_STAKE, 0),
            }),
            Err(Memory) => Err(Refused::Memory),
        }
    }
}

impl<L: Ledger> Held for CountedFrozen<L> {
    ghost use Rattle.std.specs.Prelude.{true};
    ghost use Rattle.counted_store.specs.Claims.{stake_of, pin_of};

    ghost stake = { λ memory. stake_of memory.claim.pinned memory.claim.stake };

    ghost span = { λ memory. memory.claim.span };

    ghost pin = { λ memory. pin_of memory.claim.pinned true memory.claim.stake };
}

impl<L: Ledger> FrozenMemory for CountedFrozen<L> {
    ghost flat = { λ memory. frozen.flat memory.plain };

    ghost image = { λ memory. memory.image };
}
