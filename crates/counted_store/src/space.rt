//! The space.

ghost use Rattle.std.specs.Prelude.{◌≡◌, ◌+◌, ◌≤◌, false, true, IfOk};
ghost use Rattle.plain_space.specs.PlainSpace as plain;
ghost use Rattle.counted_store.specs.Counted.{IsCounted};
ghost use Rattle.counted_store.specs.Sound.{IsCounted-prop};

use crate::claim::Claim;
use crate::counted::Counted;
use space_api::{Access, Held, Space};
use std::sync::ledger::Ledger;

/// A space over copied pages that holds spares: a first write of pages spends as many as it takes
/// frames. All frames that it ever got are in its span, those that it spent too.
#[derive(Drop)]
pub struct StakedSpace<L: Ledger> {
    pub(crate) counted: Counted,
    pub(crate) claim: Claim<L>,
    ghost sound: { IsCounted counted } by { IsCounted-prop counted },
    ghost spanned: { counted.spares ≤ claim.span },
}

impl<L: Ledger> Held for StakedSpace<L> {
    ghost use Rattle.counted_store.specs.Claims.{stake_of, pin_of};

    ghost stake = { λ space. stake_of space.claim.pinned space.claim.stake };

    ghost span = { λ space. space.claim.span };

    ghost pin = { λ space. pin_of space.claim.pinned (plain.finished space.counted.plain)
        space.claim.stake };
}

impl<L: Ledger> Space for StakedSpace<L> {
    ghost use Rattle.std.specs.Prelude.{◌≡◌, ◌≢◌, ℕ, ◌+◌, ◌%◌, ◌<◌, ◌≤◌, ◌⊎◌, ◌↔◌, true, false};
    ghost use Rattle.std.specs.Prelude.{List};
    ghost use Rattle.std.specs.Prelude.{length, None, IfOk, OnOk, OnErr, IsOk, Err, MatchBool};
    ghost use Rattle.std.specs.Prelude.{IfErr};
    ghost use Rattle.counted_store.specs.Counted.{flat_in};
    ghost use Rattle.counted_store.specs.Claims.{may_run, running_is_loose};

    ghost flat = { λ space. flat_in space.counted };

    ghost spares = { λ space. space.counted.spares };

    ghost finished = { λ space. may_run space.claim.pinned (plain.finished space.counted.plain) };

    ghost takes_frames = { true };

    ghost lacks_memory = { true };

    fn load(&mut self, at: u64, n: u8) -> Result<u64, Access> {
        self.counted.plain.load(at, n)
    }

    fn store(&mut self, at: u64, n: u8, v: u64) -> Result<(), Access> {
        let bytes = v.to_le_bytes();
        self.counted.put(at, &bytes[..usize::from(n)])
    }

    fn fetch(&mut self, at: u64) -> Result<u32, Access> {
        self.counted.plain.fetch(at)
    }

    fn read_into(&mut self, at: u64, buf: &mut [u8]) -> Result<(), Access> {
        self.counted.plain.read_into(at, buf)
    }

    fn write_from(&mut self, at: u64, bytes: &[u8]) -> Result<(), Access> {
        self.counted.put(at, bytes)
    }

    fn held(&self) -> u32 {
        self.counted.spares
    }

    ghost spares_are_few = { λ space. space.sound.few };

    ghost finished_is_free = { λ space e. running_is_loose space.claim.pinned
        (plain.finished space.counted.plain) space.claim.stake e };
}
