//! Two threads gain and lose each of 512 mid tables below one root a thousand times, while they
//! look at its words, of which no two are the same.

ghost use Rattle.std.specs.Prelude.{◌≡◌, ◌+◌, ◌*◌, ◌<◌, ◌≤◌};
ghost use Rattle.frame_model.specs.Views.{first_view, whole_stake};
ghost use Rattle.frame_words.specs.Holders.{view, IsOf};
ghost use Rattle.frame_steps_tests.specs.Mids.{pointer_to, IsPlaced, IsShared, HasReferences};

use frame_steps::{gain, lose, set_entry};
use frame_words::{
    Frame, FrameTable, Holder, Kind, Part, dress, join, peek_meta, peek_word, split,
};
use std::test::Fail;
use std::thread;
use std::thread::Threads;

/// The entry of a root or a mid table that names this table.
fn pointer(table: Frame) -> u64
    ensures { result ≡ pointer_to table.0 }
{
    table.0 as u64 * 1024 + 1
}

/// Makes a mid table, and puts a leaf table below it.
fn grow(t: &FrameTable, h: &mut Holder, i: u16)
    requires of { IsOf h.old t.now }
    requires index { i < 512 }
    requires placed { IsPlaced i i (view h.old) }
    ensures of { IsOf h.new t.now }
    ensures placed { IsPlaced i (i + 1) (view h.new) }
{
    let leaf = Frame(i as u32 + 513);
    dress(t, h, Frame(i as u32 + 1), Kind::Mid);
    dress(t, h, leaf, Kind::Leaf);
    gain(t, h, leaf);
    set_entry(t, h, Frame(i as u32 + 1), i, pointer(leaf));
}

/// Puts one mid table more below the root.
fn place(t: &FrameTable, h: &mut Holder, i: u16)
    requires of { IsOf h.old t.now }
    requires index { i < 512 }
    requires placed { IsPlaced i i (view h.old) }
    ensures of { IsOf h.new t.now }
    ensures placed { IsPlaced (i + 1) (i + 1) (view h.new) }
{
    grow(t, h, i);
    let mid = Frame(i as u32 + 1);
    gain(t, h, mid);
    set_entry(t, h, Frame(0), i, pointer(mid));
}

/// Makes frame 0 a root of 512 mid tables.
fn plant(t: &FrameTable, h: &mut Holder)
    requires of { IsOf h.old t.now }
    requires whole { view h.old ≡ first_view 1025 }
    ensures of { IsOf h.new t.now }
    ensures placed { IsPlaced 512 512 (view h.new) }
{
    dress(t, h, Frame(0), Kind::Root);
    for i in 0..512 {
        place(t, h, i);
    }
}

/// Gives up owning the root and all below it, and keeps a reference.
fn seal(t: &FrameTable, h: &mut Holder)
    requires of { IsOf h.old t.now }
    requires placed { IsPlaced 512 512 (view h.old) }
    ensures of { IsOf h.new t.now }
    ensures shared { IsShared (view h.new) }
    ensures one { HasReferences 1 (view h.new) }
    ensures stake { (view h.new).stake ≡ whole_stake }
{
    gain(t, h, Frame(0));
    gain(t, h, Frame(0));
    lose(t, h, Frame(0));
}

/// Makes a second holder that refers to the root.
fn second(t: &FrameTable, h: &mut Holder) -> Holder
    requires of { IsOf h.old t.now }
    requires shared { IsShared (view h.old) }
    requires one { HasReferences 1 (view h.old) }
    requires stake { (view h.old).stake ≡ whole_stake }
    ensures of { IsOf h.new t.now }
    ensures new_of { IsOf result t.now }
    ensures shared { IsShared (view h.new) }
    ensures one { HasReferences 1 (view h.new) }
    ensures new_shared { IsShared (view result) }
    ensures new_one { HasReferences 1 (view result) }
{
    gain(t, h, Frame(0));
    split(
        t,
        h,
        &Part::Root {
            root: Frame(0),
            stake: 7,
        },
    )
}

/// Gains and loses a mid table. Tells the words of the root and of the table that it saw.
fn seen(t: &FrameTable, h: &mut Holder, i: u16) -> (u64, u64)
    requires of { IsOf h.old t.now }
    requires index { i < 512 }
    requires shared { IsShared (view h.old) }
    requires one { HasReferences 1 (view h.old) }
    ensures of { IsOf h.new t.now }
    ensures view { view h.new ≡ view h.old }
{
    let mid = Frame(i as u32 + 1);
    gain(t, h, mid);
    let entry = peek_word(t, h, Frame(0), i);
    let word = peek_word(t, h, mid, i);
    lose(t, h, mid);
    (entry, word)
}

/// Whether the words seen on a visit are those that were written.
fn visit(t: &FrameTable, h: &mut Holder, i: u16) -> bool
    requires of { IsOf h.old t.now }
    requires index { i < 512 }
    requires shared { IsShared (view h.old) }
    requires one { HasReferences 1 (view h.old) }
    ensures of { IsOf h.new t.now }
    ensures view { view h.new ≡ view h.old }
{
    let written = (pointer(Frame(i as u32 + 1)), pointer(Frame(i as u32 + 513)));
    seen(t, h, i) == written
}

/// Visits each mid table once.
fn round(t: &FrameTable, h: &mut Holder) -> bool
    requires of { IsOf h.old t.now }
    requires shared { IsShared (view h.old) }
    requires one { HasReferences 1 (view h.old) }
    ensures of { IsOf h.new t.now }
    ensures view { view h.new ≡ view h.old }
{
    let mut right = true;
    for i in 0..512 {
        right = visit(t, h, i) && right;
    }
    right
}

/// A thousand rounds, by the thread that has the holder.
fn rounds(t: &FrameTable, h: Holder) -> (Holder, bool)
    requires of { IsOf h t.now }
    requires shared { IsShared (view h) }
    requires one { HasReferences 1 (view h) }
    ensures of { IsOf result.0 t.now }
    ensures shared { IsShared (view result.0) }
    ensures one { HasReferences 1 (view result.0) }
{
    let mut mine = h;
    let mut right = true;
    for _ in 0..1000 {
        right = round(t, &mut mine) && right;
    }
    (mine, right)
}

/// Both threads' rounds, and one holder of all then.
fn side_by_side<R: Threads>(rt: &R, t: &FrameTable, one: Holder, two: Holder) -> (Holder, bool)
    requires of { IsOf one t.now }
    requires two_of { IsOf two t.now }
    requires shared { IsShared (view one) }
    requires two_shared { IsShared (view two) }
    requires one_reference { HasReferences 1 (view one) }
    requires two_reference { HasReferences 1 (view two) }
    ensures of { IsOf result.0 t.now }
    ensures shared { IsShared (view result.0) }
{
    let ((mut all, first), (other, second)) = thread::join(
        rt,
        move ||
            requires { IsOf one t.now × IsShared (view one) × HasReferences 1 (view one) }
            ensures { IsOf result.0 t.entry.now × IsShared (view result.0)
                × HasReferences 1 (view result.0) }
        { rounds(t, one) },
        move ||
            requires { IsOf two t.now × IsShared (view two) × HasReferences 1 (view two) }
            ensures { IsOf result.0 t.entry.now × IsShared (view result.0)
                × HasReferences 1 (view result.0) }
        { rounds(t, two) },
    );
    join(t, &mut all, other);
    (all, first && second)
}

/// Whether each mid table has count 1, and the root this one.
fn is_counted(t: &FrameTable, h: &mut Holder, root: u64) -> bool
    requires of { IsOf h.old t.now }
    requires shared { IsShared (view h.old) }
    ensures of { IsOf h.new t.now }
    ensures view { view h.new ≡ view h.old }
{
    let mut right = peek_meta(t, h, Frame(0)) / 256 == root;
    for i in 0..512u16 {
        right = peek_meta(t, h, Frame(i as u32 + 1)) == 258 && right;
    }
    right
}

#[test]
fn two_threads_count_what_both_reach(rt: HostRuntime) -> Result<(), Fail> {
    let (table, mut one) = FrameTable::open(rt.alloc(), 1025)?;
    plant(&table, &mut one);
    seal(&table, &mut one);
    let two = second(&table, &mut one);
    assert!(rt; is_counted(&table, &mut one, 2));
    let (mut all, right) = side_by_side(&rt, &table, one, two);
    assert!(rt; right && is_counted(&table, &mut all, 2));
    Ok(())
}
