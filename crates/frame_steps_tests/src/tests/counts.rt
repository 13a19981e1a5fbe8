//! Counts above 255 and above 65,535: each word of 128 leaf tables names one frame.

ghost use Rattle.std.specs.Prelude.{◌≡◌, ◌+◌, ◌<◌, ◌≤◌};
ghost use Rattle.frame_model.specs.Views.{first_view};
ghost use Rattle.frame_words.specs.Holders.{view, IsOf};
ghost use Rattle.frame_steps_tests.specs.Filled.{IsLaid, IsFilled};

use frame_steps::{gain, set_entry};
use frame_words::{Frame, FrameTable, Holder, Kind, dress, peek_meta};
use std::test::Fail;

/// Makes leaf tables of frames 1 to 128.
fn lay(t: &FrameTable, h: &mut Holder)
    requires of { IsOf h.old t.now }
    requires whole { view h.old ≡ first_view 129 }
    ensures of { IsOf h.new t.now }
    ensures laid { IsLaid 129 (view h.new) }
{
    for f in 1..129u32 {
        dress(t, h, Frame(f), Kind::Leaf);
    }
}

/// Refers to frame 0 twice, and gives it up.
fn give_up(t: &FrameTable, h: &mut Holder)
    requires of { IsOf h.old t.now }
    requires laid { IsLaid 129 (view h.old) }
    ensures of { IsOf h.new t.now }
    ensures filled { IsFilled 512 (view h.new) }
{
    gain(t, h, Frame(0));
    gain(t, h, Frame(0));
}

/// One entry more, which is shared and may be read and executed.
fn fill(t: &FrameTable, h: &mut Holder, n: u32)
    requires of { IsOf h.old t.now }
    requires least { 512 ≤ n }
    requires most { n < 66048 }
    requires filled { IsFilled n (view h.old) }
    ensures of { IsOf h.new t.now }
    ensures filled { IsFilled (n + 1) (view h.new) }
{
    gain(t, h, Frame(0));
    set_entry(t, h, Frame(n / 512), (n % 512) as u16, 0xdb);
}

/// Fills the words up to this number, and tells the count of frame 0.
fn filled_up(t: &FrameTable, h: &mut Holder, from: u32, to: u32) -> u64
    requires of { IsOf h.old t.now }
    requires least { 512 ≤ from }
    requires up { from ≤ to }
    requires most { to ≤ 66048 }
    requires filled { IsFilled from (view h.old) }
    ensures of { IsOf h.new t.now }
    ensures filled { IsFilled to (view h.new) }
{
    for n in from..to {
        fill(t, h, n);
    }
    peek_meta(t, h, Frame(0)) / 256
}

#[test]
fn counts_are_large(rt: HostRuntime) -> Result<(), Fail> {
    let (table, mut holder) = FrameTable::open(rt.alloc(), 129)?;
    let (t, h) = (&table, &mut holder);
    lay(t, h);
    give_up(t, h);
    assert_eq!(rt; filled_up(t, h, 512, 765), 255);
    assert_eq!(rt; filled_up(t, h, 765, 766), 256);
    assert_eq!(rt; filled_up(t, h, 766, 767), 257);
    assert_eq!(rt; filled_up(t, h, 767, 66_045), 65_535);
    assert_eq!(rt; filled_up(t, h, 66_045, 66_046), 65_536);
    assert_eq!(rt; filled_up(t, h, 66_046, 66_048), 65_538);
    Ok(())
}
