//! The space.

ghost use Rattle.std.specs.Prelude.{◌≡◌, ◌+◌, ◌≤◌, min, IfOk, true};
ghost use Rattle.space_api.specs.Flat.{flat_of};
ghost use Rattle.space_api.specs.Frames.{spares_limit};
ghost use Rattle.plain_space.specs.PlainSpace as plain;
ghost use Rattle.counted_space.specs.Counted.{IsCounted};
ghost use Rattle.counted_space.specs.Sound.{IsCounted-prop};

use crate::counted::Counted;
use plain_space::{PlainShelf, PlainSpace, PlainStore};
use space_api::{Access, Held, Memory, Space, Start, Store};
use std::alloc::Global;
use std::slice;

/// How many spares it holds at most.
const SPARES_LIMIT: u32 = 16;

/// A space over copied pages that holds spares: a write spends as many as it needs frames. It is
/// for tests, and takes no frames from anywhere. Its stake and its span are 0, and it is
/// finished.
#[derive(Drop)]
pub struct CountedSpace {
    counted: Counted,
    ghost sound: { IsCounted counted } by { IsCounted-prop counted },
}

/// A space of the start over copied pages, which may run.
fn plain_of(alloc: Global, start: &Start) -> Result<PlainSpace, Memory>
    ensures flat { IfOk result (λ space. plain.flat space ≡ flat_of start.now) }
    ensures finished { IfOk result (λ space. plain.finished space ≡ true) }
{
    let store = PlainStore::open(slice::from_ref(start))?;
    let mut shelf = PlainShelf::new(0);
    let Ok(mut image) = store.open_image(alloc, &mut shelf, 0) else {
        return Err(Memory);
    };
    let Ok(mut space) = store.deploy(alloc, &mut image, &mut shelf) else {
        return Err(Memory);
    };
    store.finish_deploy(&mut space);
    Ok(space)
}

impl CountedSpace {
    ghost use Rattle.counted_space.specs.CountedSpace.{flat, spares};

    /// The space of a start, of which no page was written, with `n` spares, at most 16.
    pub fn of(alloc: Global, start: &Start, n: u32) -> Result<CountedSpace, Memory>
        requires { n ≤ spares_limit }
        ensures flat { IfOk result (λ space. flat space ≡ flat_of start.now) }
        ensures spares { IfOk result (λ space. spares space ≡ n) }
    {
        start.keeps_layout();
        let plain = plain_of(alloc, start)?;
        let counted = Counted {
            alloc,
            plain,
            pages: Vec::new(alloc),
            spares: n,
        };
        Ok(CountedSpace { counted })
    }

    /// Gives it so many spares more, to at most 16.
    pub fn refill(&mut self, n: u32)
        ensures spares { spares self.new ≡ min (spares self.old + n) spares_limit }
        ensures flat { flat self.new ≡ flat self.old }
    {
        self.counted.spares = self.counted.spares.saturating_add(n).min(SPARES_LIMIT);
    }
}

impl Held for CountedSpace {
    ghost use Rattle.std.specs.Prelude.{None};

    ghost stake = { λ _. 0 };

    ghost span = { λ _. 0 };

    ghost pin = { λ _. None };
}

impl Space for CountedSpace {
    ghost use Rattle.std.specs.Prelude.{◌≡◌, ◌≢◌, ℕ, ◌+◌, ◌%◌, ◌<◌, ◌≤◌, ◌⊎◌, ◌↔◌, true, false};
    ghost use Rattle.std.specs.Prelude.{List};
    ghost use Rattle.std.specs.Prelude.{length, None, IfOk, OnOk, OnErr, IsOk, Err, MatchBool};
    ghost use Rattle.std.specs.Prelude.{IfErr};
    ghost use Rattle.std.proofs.Common.{refl};
    ghost use Rattle.counted_space.specs.CountedSpace.{flat, spares};

    ghost flat = { flat };

    ghost spares = { spares };

    ghost finished = { λ _. true };

    ghost takes_frames = { true };

    ghost lacks_memory = { true };

    fn load(&mut self, at: u64, n: u8) -> Result<u64, Access> {
        self.counted.plain.load(at, n)
    }

    fn store(&mut self, at: u64, n: u8, v: u64) -> Result<(), Access> {
        let bytes = v.to_le_bytes();
        self.counted.put(at, &bytes[..usize::from(n)])
    }

    fn fetch(&mut self, at: u64) -> Result<u32, Access> {
        self.counted.plain.fetch(at)
    }

    fn read_into(&mut self, at: u64, buf: &mut [u8]) -> Result<(), Access> {
        self.counted.plain.read_into(at, buf)
    }

    fn write_from(&mut self, at: u64, bytes: &[u8]) -> Result<(), Access> {
        self.counted.put(at, bytes)
    }

    fn held(&self) -> u32 {
        self.counted.spares
    }

    ghost spares_are_few = { λ space. space.sound.few };

    ghost finished_is_free = { λ _ _. refl };
}
