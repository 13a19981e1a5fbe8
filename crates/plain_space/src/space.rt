//! The space.

ghost use Rattle.std.specs.Prelude.{◌≡◌, true, false, IfOk, OnOk, OnErr};
ghost use Rattle.image_model.specs.Pages.{page_limit};
ghost use Rattle.machine_model.specs.Machine.{count_below, least_failing};
ghost use Rattle.space_api.specs.Flat.{is_writable};
ghost use Rattle.space_api.specs.Stores.{frozen};
ghost use Rattle.plain_space.specs.FrozenPages.{AreFrozen, frozen_in};
ghost use Rattle.plain_space.specs.Sound.{IsSound-prop};
ghost use Rattle.plain_space.specs.Space.{IsSound, flat_in};

use crate::frozen_pages::FrozenPages;
use crate::pages::Pages;
use crate::reads::Use;
use space_api::{Access, Held, Memory, Space};
use std::alloc::Global;

/// A space over copied pages. It shares nothing, takes no frames and holds no spares. Its stake
/// and its span are 0, and nothing pins it.
#[derive(Drop)]
pub struct PlainSpace {
    pages: Pages,
    finished: bool,
    ghost sound: { IsSound pages } by { IsSound-prop pages },
}

impl PlainSpace {
    ghost use Rattle.plain_space.specs.PlainSpace.{flat};

    /// A space of these pages, which is to be finished.
    pub(crate) fn begun(pages: Pages) -> PlainSpace
        requires { IsSound pages }
        ensures flat { flat result ≡ flat_in pages }
        ensures finished { result.finished ≡ false }
    {
        PlainSpace {
            pages,
            finished: false,
        }
    }

    /// Finishes it: it may run.
    pub(crate) fn finish(&mut self)
        ensures flat { flat self.new ≡ flat self.old }
        ensures finished { self.new.finished ≡ true }
    {
        self.finished = true;
    }

    /// Freezes its pages, and goes on with copies of them, of which none was written.
    pub(crate) fn freeze(&mut self, alloc: Global) -> Result<FrozenPages, Memory>
        ensures sound { IfOk result AreFrozen }
        ensures frozen { IfOk result (λ pages. frozen_in pages ≡ frozen (flat self.old)) }
        ensures flat { OnOk result (flat self.new ≡ frozen (flat self.old)) }
        ensures kept { OnErr result (flat self.new ≡ flat self.old) }
        ensures finished { self.new.finished ≡ self.old.finished }
    {
        self.pages.freeze(alloc)
    }

    /// How many of its pages were written.
    pub(crate) fn count_marks(&self) -> u32
        ensures { result ≡ count_below (flat self.now).written page_limit }
    {
        self.pages.count_marks()
    }

    /// The least of `size` addresses from `at` on that may not be written.
    pub fn first_unwritable(&self, at: u64, size: usize) -> Option<u64>
        ensures { result ≡ least_failing (is_writable (flat self.now)) at size }
    {
        self.pages.least_failing(Use::Write, at, size)
    }
}

impl Held for PlainSpace {
    ghost use Rattle.std.specs.Prelude.{None};

    ghost stake = { λ _. 0 };

    ghost span = { λ _. 0 };

    ghost pin = { λ _. None };
}

impl Space for PlainSpace {
    ghost use Rattle.std.specs.Prelude.{◌≡◌, ◌≢◌, ℕ, ◌+◌, ◌%◌, ◌<◌, ◌≤◌, ◌⊎◌, ◌↔◌, true, false};
    ghost use Rattle.std.specs.Prelude.{List};
    ghost use Rattle.std.specs.Prelude.{length, None, IfOk, OnOk, OnErr, IsOk, Err, MatchBool};
    ghost use Rattle.std.specs.Prelude.{IfErr};
    ghost use Rattle.std.proofs.Common.{rules, refl};
    ghost use Rattle.plain_space.specs.PlainSpace.{flat, finished};

    ghost flat = { flat };

    ghost spares = { λ _. 0 };

    ghost finished = { finished };

    ghost takes_frames = { false };

    ghost lacks_memory = { true };

    #[inline]
    fn load(&mut self, at: u64, n: u8) -> Result<u64, Access> {
        self.pages.load(at, n)
    }

    #[inline]
    fn store(&mut self, at: u64, n: u8, v: u64) -> Result<(), Access> {
        self.pages.store(at, n, v)
    }

    #[inline]
    fn fetch(&mut self, at: u64) -> Result<u32, Access> {
        self.pages.fetch(at)
    }

    fn read_into(&mut self, at: u64, buf: &mut [u8]) -> Result<(), Access> {
        self.pages.read_into(at, buf)
    }

    fn write_from(&mut self, at: u64, bytes: &[u8]) -> Result<(), Access> {
        self.pages.write_from(at, bytes)
    }

    /// How many spares it holds: none.
    fn held(&self) -> u32 {
        0
    }

    ghost spares_are_few = { λ _. Prim.search rules };

    ghost finished_is_free = { λ _ _. refl };
}
