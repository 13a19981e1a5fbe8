//! Pages that nothing changes any more, and what spaces begin with.

ghost use Rattle.std.specs.Prelude.{◌≡◌, IfOk, OnOk, OnErr};
ghost use Rattle.space_api.specs.Flat.{flat_of};
ghost use Rattle.space_api.specs.Stores.{frozen};

use crate::page::Page;
use crate::page_copies::{copy_all, copy_held};
use crate::pages::Pages;
use crate::start_pages::copy_pages;
use image_model::{Region, Start};
use machine_model::Memory;
use std::alloc::Global;
use std::mem;

/// Pages that nothing changes any more, in rising order, and the regions that say what may be
/// done with them and with all others, which are zeros. No page of them counts as written.
#[derive(Drop)]
pub struct FrozenPages {
    pub regions: Vec<Region>,
    pub list: Vec<Page>,
}

impl FrozenPages {
    ghost use Rattle.plain_space.specs.FrozenPages.{AreFrozen, frozen_in};
    ghost use Rattle.plain_space.specs.Space.{IsSound, flat_in};

    /// Copies of the pages of a start.
    pub fn of_start(alloc: Global, start: &Start) -> Result<FrozenPages, Memory>
        ensures sound { IfOk result AreFrozen }
        ensures flat { IfOk result (λ pages. frozen_in pages ≡ flat_of start.now) }
    {
        start.keeps_layout();
        let regions = Vec::from_slice(alloc, start.regions())?;
        let list = copy_pages(alloc, start.regions(), start.pages())?;
        Ok(FrozenPages { regions, list })
    }

    /// Pages of a space with these bytes, of which none was written. Pages of zeros aren't
    /// copied.
    pub fn thaw(&self, alloc: Global) -> Result<Pages, Memory>
        requires { AreFrozen self.now }
        ensures sound { IfOk result IsSound }
        ensures flat { IfOk result (λ pages. flat_in pages ≡ frozen_in self.now) }
    {
        let regions = Vec::from_slice(alloc, &self.regions)?;
        let list = copy_held(alloc, &self.list)?;
        Ok(Pages {
            alloc,
            regions,
            list,
            code: [0; 64],
            data: [0; 64],
        })
    }
}

impl Pages {
    ghost use Rattle.plain_space.specs.FrozenPages.{AreFrozen, frozen_in};
    ghost use Rattle.plain_space.specs.Space.{IsSound, flat_in};

    /// Freezes the pages. The space goes on with copies of them, of which none was written.
    pub fn freeze(&mut self, alloc: Global) -> Result<FrozenPages, Memory>
        requires { IsSound self.old }
        ensures sound { IsSound self.new }
        ensures frozen_sound { IfOk result AreFrozen }
        ensures frozen_flat { IfOk result (λ pages. frozen_in pages ≡ frozen (flat_in self.old)) }
        ensures flat { OnOk result (flat_in self.new ≡ frozen (flat_in self.old)) }
        ensures kept { OnErr result (flat_in self.new ≡ flat_in self.old) }
    {
        let regions = Vec::from_slice(alloc, &self.regions)?;
        let copies = copy_all(alloc, &self.list)?;
        let list = mem::replace(&mut self.list, copies);
        Ok(FrozenPages { regions, list })
    }
}
