//! The store.

ghost use Rattle.std.specs.Prelude.{◌≡◌};

use crate::below::{capture_plain, deploy_plain, finish_plain};
use crate::claim::Claim;
use crate::counted::Counted;
use crate::frozen::CountedFrozen;
use crate::shelf::{CountedShelf, FIRST_STAKE};
use crate::space::StakedSpace;
use crate::spares::CountedSpares;
use space_api::{Captured, Memory, Refused, Start, Store};
use std::alloc::Global;
use std::marker::PhantomData;
use std::sync::ledger::Ledger;

/// How many spares a space holds at most.
const SPARES_LIMIT: u32 = 16;

/// A store for tests, which borrows the starts of the images. It copies pages, shares nothing,
/// and counts frames in a ledger.
#[derive(Drop)]
pub struct CountedStore<'a, L: Ledger> {
    starts: &'a [Start],
    ledger: PhantomData<L>,
}

impl<'a, L: Ledger> CountedStore<'a, L> {
    /// The store of these starts.
    pub fn open(starts: &'a [Start]) -> CountedStore<'a, L>
        ensures { result.starts.now ≡ starts.now }
    {
        CountedStore {
            starts,
            ledger: PhantomData,
        }
    }
}

impl<L: Ledger + Send + Sync> Store for CountedStore<'_, L> {
    ghost use Rattle.std.specs.Prelude.{◌≡◌, ℕ, ◌+◌, ◌<◌, ◌≤◌, Bool, true, false, List, length};
    ghost use Rattle.std.specs.Prelude.{slice_get, Option, None, Some, IfOk, OnOk, OnErr, IfSome};
    ghost use Rattle.std.proofs.Common.{rules, refl};
    ghost use Rattle.image_model.specs.Layout.{Layout};
    ghost use Rattle.space_api.specs.Flat.{flat_of};
    ghost use Rattle.space_api.specs.Holding.{holding_of, first_stake, if_taken, Gave, IsOpened};
    ghost use Rattle.space_api.specs.Holding.{with_returned, MayPin, MayUnpin, WasPinned};
    ghost use Rattle.space_api.specs.Holding.{WasUnpinned, IfTaken, IsWeighed};
    ghost use Rattle.space_api.specs.Stores.{spaced_of, frozen_of, frozen, image_frames};
    ghost use Rattle.space_api.specs.Stores.{refilled, RefusesRightly, Captures};

    type Space = StakedSpace<L>;

    type Frozen = CountedFrozen<L>;

    type Shelf = CountedShelf<L>;

    type Spares = CountedSpares<L>;

    ghost starts = { λ store. store.starts.now };

    ghost number = { λ spares. spares.frames };

    fn open_image(
        &self,
        alloc: Global,
        shelf: &mut CountedShelf<L>,
        start: u16,
    ) -> Result<CountedFrozen<L>, Refused> {
        CountedFrozen::open(alloc, shelf, &self.starts[usize::from(start)])
    }

    fn deploy(
        &self,
        alloc: Global,
        below: &mut CountedFrozen<L>,
        shelf: &mut CountedShelf<L>,
    ) -> Result<StakedSpace<L>, Refused> {
        if shelf.tally.free == 0 {
            return Err(Refused::Frames);
        }
        match deploy_plain(self.starts, alloc, &mut below.plain) {
            Ok(plain) => Ok(StakedSpace {
                counted: Counted {
                    alloc,
                    plain,
                    pages: Vec::new(alloc),
                    spares: 0,
                },
                claim: Claim::of(shelf.take(FIRST_STAKE, 1), FIRST_STAKE, 1),
            }),
            Err(Memory) => Err(Refused::Memory),
        }
    }

    fn finish_deploy(&self, space: &mut StakedSpace<L>) {
        finish_plain(self.starts, &mut space.counted.plain);
    }

    fn capture(
        &self,
        alloc: Global,
        space: StakedSpace<L>,
    ) -> Captured<CountedFrozen<L>, StakedSpace<L>> {
        if space.counted.spares == 0 {
            return Captured::NeedFrames(space);
        }
        let StakedSpace { counted, claim } = space;
        let Counted {
            alloc: own,
            plain,
            pages: list,
            spares,
        } = counted;
        match capture_plain(self.starts, alloc, plain) {
            Captured::Done {
                frozen: kept,
                space: plain,
                pages,
            } => {
                let mut claim = claim;
                let share = claim.split(0);
                Captured::Done {
                    frozen: CountedFrozen {
                        plain: kept,
                        image: false,
                        claim: Claim::of(share, 1, 0),
                    },
                    space: StakedSpace {
                        counted: Counted {
                            alloc: own,
                            plain,
                            pages: Vec::new(own),
                            spares: spares - 1,
                        },
                        claim,
                    },
                    pages,
                }
            }
            Captured::NeedFrames(_) => unreachable!(),
            Captured::Memory(plain) => Captured::Memory(StakedSpace {
                counted: Counted {
                    alloc: own,
                    plain,
                    pages: list,
                    spares,
                },
                claim,
            }),
        }
    }

    fn release_space(&self, space: StakedSpace<L>) -> CountedSpares<L> {
        space.claim.free()
    }

    fn release_frozen(&self, frozen: CountedFrozen<L>) -> CountedSpares<L> {
        frozen.claim.free()
    }

    fn strip(&self, space: &mut StakedSpace<L>) -> CountedSpares<L> {
        let frames = space.counted.spares;
        let share = space.claim.split(frames);
        space.counted.spares = 0;
        CountedSpares { share, frames }
    }

    fn refill(&self, shelf: &mut CountedShelf<L>, space: &mut StakedSpace<L>) -> u32 {
        let frames = (SPARES_LIMIT - space.counted.spares).min(shelf.tally.free);
        space.claim.fill(shelf, frames);
        space.counted.spares += frames;
        frames
    }

    fn give_back(&self, shelf: &mut CountedShelf<L>, spares: CountedSpares<L>) {
        let CountedSpares { share, frames } = spares;
        shelf.put(share, frames);
    }

    fn free(&self, shelf: &CountedShelf<L>) -> u32 {
        shelf.tally.free
    }

    fn count(&self, spares: &CountedSpares<L>) -> u32 {
        spares.frames
    }

    fn pin_space(&self, shelf: &mut CountedShelf<L>, space: &mut StakedSpace<L>) {
        space.claim.pin(shelf, false);
    }

    fn unpin_space(&self, shelf: &mut CountedShelf<L>, space: &mut StakedSpace<L>) {
        space.claim.unpin(shelf, false);
    }

    fn pin_frozen(&self, shelf: &mut CountedShelf<L>, frozen: &mut CountedFrozen<L>) {
        frozen.claim.pin(shelf, frozen.image);
    }

    fn unpin_frozen(&self, shelf: &mut CountedShelf<L>, frozen: &mut CountedFrozen<L>) {
        frozen.claim.unpin(shelf, frozen.image);
    }

    fn weigh(&self, shelf: &mut CountedShelf<L>) {
        shelf.weigh();
    }

    ghost spares_are_counted = { λ _. (refl, refl) };

    ghost shelf_is_spanned = { λ _. refl };

    ghost none_are_taken = { λ e. cc };
}
