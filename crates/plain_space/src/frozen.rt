//! Frozen memory.

ghost use Rattle.std.specs.Prelude.{◌≡◌, true, false, IfOk};
ghost use Rattle.space_api.specs.Flat.{flat_of};
ghost use Rattle.plain_space.specs.FrozenPages.{AreFrozen, frozen_in};
ghost use Rattle.plain_space.specs.Sound.{AreFrozen-prop};

use crate::frozen_pages::FrozenPages;
use crate::space::PlainSpace;
use space_api::{FrozenMemory, Held, Memory, Start};
use std::alloc::Global;

/// Frozen memory: copied pages that nothing changes any more. It takes no frames, and its stake
/// and its span are 0.
#[derive(Drop)]
pub struct PlainFrozen {
    pages: FrozenPages,
    image: bool,
    ghost sound: { AreFrozen pages } by { AreFrozen-prop pages },
}

impl PlainFrozen {
    ghost use Rattle.plain_space.specs.PlainFrozen.{flat};
    ghost use Rattle.plain_space.specs.PlainSpace as space;

    /// The frozen memory of an opened image, which holds copies of the pages of its start.
    pub(crate) fn open(alloc: Global, start: &Start) -> Result<PlainFrozen, Memory>
        ensures flat { IfOk result (λ memory. flat memory ≡ flat_of start.now) }
        ensures image { IfOk result (λ memory. memory.image ≡ true) }
    {
        let pages = FrozenPages::of_start(alloc, start)?;
        Ok(PlainFrozen { pages, image: true })
    }

    /// These pages, which were captured.
    pub(crate) fn captured(pages: FrozenPages) -> PlainFrozen
        requires { AreFrozen pages }
        ensures flat { flat result ≡ frozen_in pages }
        ensures image { result.image ≡ false }
    {
        PlainFrozen {
            pages,
            image: false,
        }
    }

    /// A space with its bytes, which is to be finished.
    pub(crate) fn deploy(&self, alloc: Global) -> Result<PlainSpace, Memory>
        ensures flat { IfOk result (λ s. space.flat s ≡ flat self.now) }
        ensures finished { IfOk result (λ s. s.finished ≡ false) }
    {
        let pages = self.pages.thaw(alloc)?;
        Ok(PlainSpace::begun(pages))
    }
}

impl Held for PlainFrozen {
    ghost use Rattle.std.specs.Prelude.{None};

    ghost stake = { λ _. 0 };

    ghost span = { λ _. 0 };

    ghost pin = { λ _. None };
}

impl FrozenMemory for PlainFrozen {
    ghost use Rattle.plain_space.specs.PlainFrozen.{flat};

    ghost flat = { flat };

    ghost image = { λ memory. memory.image };
}
