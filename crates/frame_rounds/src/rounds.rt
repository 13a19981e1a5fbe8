//! So many rounds of a kind of step, on a table of four frames, and the sum of what they saw.

ghost use Rattle.std.specs.Prelude.{◌≡◌, ◌<◌, ◌≤◌};
ghost use Rattle.frame_model.specs.Rule.{most_frames};
ghost use Rattle.frame_model.specs.Views.{first_view};
ghost use Rattle.frame_words.specs.Holders.{view, IsOf};

use crate::kinds::StepKind;
use crate::steps;
use frame_words::{FrameTable, Holder, Memory};
use std::alloc::Global;

fn peeks(t: &FrameTable, h: &mut Holder, rounds: u64) -> u64
    requires of { IsOf h.old t.now }
    requires view { view h.old ≡ first_view 4 }
{
    steps::first_put(t, h);
    let mut seen: u64 = 0;
    for _ in 0..rounds {
        seen = seen.wrapping_add(steps::peek_round(t, h));
    }
    seen
}

fn puts(t: &FrameTable, h: &mut Holder, rounds: u64) -> u64
    requires of { IsOf h.old t.now }
    requires view { view h.old ≡ first_view 4 }
{
    steps::first_put(t, h);
    let mut seen: u64 = 0;
    for round in 0..rounds {
        seen = seen.wrapping_add(steps::put_round(t, h, round));
    }
    seen
}

fn dresses(t: &FrameTable, h: &mut Holder, rounds: u64) -> u64
    requires of { IsOf h.old t.now }
    requires view { view h.old ≡ first_view 4 }
{
    steps::first_dress(t, h);
    let mut seen: u64 = 0;
    for _ in 0..rounds {
        seen = seen.wrapping_add(steps::dress_round(t, h));
    }
    seen
}

fn gains(t: &FrameTable, h: &mut Holder, rounds: u64) -> u64
    requires of { IsOf h.old t.now }
    requires view { view h.old ≡ first_view 4 }
{
    let mut seen: u64 = 0;
    for _ in 0..rounds {
        seen = seen.wrapping_add(steps::gain_round(t, h));
    }
    seen
}

fn entries(t: &FrameTable, h: &mut Holder, rounds: u64) -> u64
    requires of { IsOf h.old t.now }
    requires view { view h.old ≡ first_view 4 }
{
    steps::first_entry(t, h);
    let mut seen: u64 = 0;
    for _ in 0..rounds {
        seen = seen.wrapping_add(steps::entry_round(t, h));
    }
    seen
}

fn cuts(t: &FrameTable, h: &mut Holder, rounds: u64) -> u64
    requires of { IsOf h.old t.now }
    requires view { view h.old ≡ first_view 4 }
{
    steps::first_fill(t, h);
    steps::first_cut(t, h);
    let mut seen: u64 = 0;
    for _ in 0..rounds {
        seen = seen.wrapping_add(steps::cut_round(t, h));
    }
    seen
}

/// Plays so many rounds of the kind on four frames, and answers the sum of what the rounds saw,
/// modulo 2^64. Memory is want of memory.
pub fn played(alloc: Global, kind: StepKind, rounds: u64) -> Result<u64, Memory> {
    let (table, mut holder) = FrameTable::open(alloc, 4)?;
    let (t, h) = (&table, &mut holder);
    Ok(match kind {
        StepKind::Peek => peeks(t, h, rounds),
        StepKind::Put => puts(t, h, rounds),
        StepKind::Dress => dresses(t, h, rounds),
        StepKind::Gain => gains(t, h, rounds),
        StepKind::Entry => entries(t, h, rounds),
        StepKind::Cut => cuts(t, h, rounds),
    })
}

/// Opens a table of so many frames, and answers their number. Memory is want of memory.
pub fn opened(alloc: Global, frames: u32) -> Result<u32, Memory>
    requires some { 0 < frames }
    requires most { frames ≤ most_frames }
{
    let (table, _holder) = FrameTable::open(alloc, frames)?;
    Ok(table.frames)
}
