//! Each call once, on four frames.

ghost use Rattle.std.specs.Prelude.{◌≡◌};
ghost use Rattle.frame_model.specs.Views.{first_view};
ghost use Rattle.frame_words.specs.Holders.{view, IsOf};
ghost use Rattle.frame_words.specs.Steps.{joined};
ghost use Rattle.frame_words.specs.Rows.{kept_view, given_view, written_view};

use crate::{Frame, FrameTable, Holder, Part, join, peek_word, put_word, split, tell_whole};
use std::test::Fail;

/// Gives frame 3 away.
fn parted(t: &FrameTable, h: &mut Holder) -> Holder
    requires of { IsOf h.old t.now }
    requires whole { view h.old ≡ first_view 4 }
    ensures of { IsOf h.new t.now }
    ensures new { IsOf result t.now }
    ensures kept { view h.new ≡ kept_view }
    ensures given { view result ≡ given_view }
{
    split(
        t,
        h,
        &Part::Pile {
            first: Frame(3),
            count: 1,
            stake: 5,
        },
    )
}

/// Stores a word of frame 3, and looks at it.
fn written(t: &FrameTable, h: &mut Holder) -> u64
    requires of { IsOf h.old t.now }
    requires given { view h.old ≡ given_view }
    ensures of { IsOf h.new t.now }
    ensures view { view h.new ≡ written_view }
{
    put_word(t, h, Frame(3), 7, 99);
    peek_word(t, h, Frame(3), 7)
}

/// Takes all in again, and ends the table.
fn closed(t: FrameTable, h: Holder, other: Holder) -> u32
    requires of { IsOf h t }
    requires other_of { IsOf other t }
    requires kept { view h ≡ kept_view }
    requires written { view other ≡ written_view }
{
    let mut all = h;
    join(&t, &mut all, other);
    tell_whole(&t, &mut all);
    t.close(all)
}

#[test]
fn a_frame_goes_and_comes_back(rt: HostRuntime) -> Result<(), Fail> {
    let (table, mut holder) = FrameTable::open(rt.alloc(), 4)?;
    let mut other = parted(&table, &mut holder);
    assert!(rt; written(&table, &mut other) == 99);
    assert!(rt; closed(table, holder, other) == 4);
    Ok(())
}
