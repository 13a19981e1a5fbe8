//! The largest table, opened and closed. Between them its last frame goes to another holder.

ghost use Rattle.std.specs.Prelude.{◌≡◌, ◌<◌, ◌≤◌};
ghost use Rattle.frame_model.specs.Rule.{most_frames};
ghost use Rattle.frame_model.specs.Views.{first_view};
ghost use Rattle.frame_words.specs.Holders.{view, IsOf};
ghost use Rattle.frame_steps_tests.specs.Parted.{IsParted};

use frame_words::{Frame, FrameTable, Holder, Memory, Part, join, split, tell_whole};
use std::alloc::Global;
use std::test::Fail;

/// Gives the last frame away, with a stake of 5.
fn parted(t: &FrameTable, h: &mut Holder, frames: u32) -> Holder
    requires of { IsOf h.old t.now }
    requires some { 0 < frames }
    requires whole { view h.old ≡ first_view frames }
    ensures of { IsOf h.new t.now }
    ensures new { IsOf result t.now }
    ensures parted { IsParted (view h.new) (view result) }
{
    split(
        t,
        h,
        &Part::Pile {
            first: Frame(frames - 1),
            count: 1,
            stake: 5,
        },
    )
}

/// Takes all in again, with the whole stake, and ends the table.
fn closed(t: FrameTable, h: Holder, other: Holder) -> u32
    requires of { IsOf h t }
    requires other_of { IsOf other t }
    requires parted { IsParted (view h) (view other) }
{
    let mut all = h;
    join(&t, &mut all, other);
    tell_whole(&t, &mut all);
    t.close(all)
}

/// How many frames a table of so many had when it was closed.
fn opened_and_closed(alloc: Global, frames: u32) -> Result<u32, Memory>
    requires some { 0 < frames }
    requires most { frames ≤ most_frames }
{
    let (table, mut holder) = FrameTable::open(alloc, frames)?;
    let other = parted(&table, &mut holder, frames);
    Ok(closed(table, holder, other))
}

#[test]
fn the_largest_table_is_closed(rt: HostRuntime) -> Result<(), Fail> {
    assert_eq!(rt; opened_and_closed(rt.alloc(), 131_072), Ok(131_072));
    assert_eq!(rt; opened_and_closed(rt.alloc(), 1), Ok(1));
    Ok(())
}
