//! One thread's steps, against counts that were worked out by hand.

ghost use Rattle.std.specs.Prelude.{◌≡◌};
ghost use Rattle.frame_model.specs.Views.{first_view};
ghost use Rattle.frame_words.specs.Holders.{view, IsOf};
ghost use Rattle.frame_steps.specs.Rows.{referred_view, named_view};

use crate::{Lost, gain, lose, set_entry};
use frame_words::{Frame, FrameTable, Holder, Kind, dress, peek_meta};
use std::test::Fail;

/// Makes frame 1 a leaf table, and refers to frame 0.
fn prepared(t: &FrameTable, h: &mut Holder)
    requires of { IsOf h.old t.now }
    requires whole { view h.old ≡ first_view 4 }
    ensures of { IsOf h.new t.now }
    ensures view { view h.new ≡ referred_view }
{
    dress(t, h, Frame(1), Kind::Leaf);
    gain(t, h, Frame(0));
}

/// Names frame 0 in the table, and tells its meta word.
fn named(t: &FrameTable, h: &mut Holder) -> u64
    requires of { IsOf h.old t.now }
    requires prepared { view h.old ≡ referred_view }
    ensures of { IsOf h.new t.now }
    ensures view { view h.new ≡ named_view }
{
    set_entry(t, h, Frame(1), 0, 0x1d7);
    peek_meta(t, h, Frame(0))
}

/// Takes the entry out and gives the reference back. Tells whether it was the last name, and the
/// meta word then.
fn unnamed(t: &FrameTable, h: &mut Holder) -> (bool, u64)
    requires of { IsOf h.old t.now }
    requires named { view h.old ≡ named_view }
{
    set_entry(t, h, Frame(1), 0, 0);
    let last = lose(t, h, Frame(0));
    (matches!(last, Lost::Owned), peek_meta(t, h, Frame(0)))
}

#[test]
fn an_entry_is_counted_and_taken_out(rt: HostRuntime) -> Result<(), Fail> {
    let (table, mut holder) = FrameTable::open(rt.alloc(), 4)?;
    prepared(&table, &mut holder);
    assert!(rt; named(&table, &mut holder) == 256);
    assert!(rt; unnamed(&table, &mut holder) == (true, 0));
    Ok(())
}
