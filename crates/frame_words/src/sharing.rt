//! What goes from one holder to another.

ghost use Rattle.std.specs.Prelude.{◌≡◌, ◌+◌, ◌<◌, ◌≤◌, length};
ghost use Rattle.frame_model.specs.Views.{OwnsDataAlone, OwnsAll, most_references, whole_stake};
ghost use Rattle.frame_words.specs.Holders.{view, IsOf, IsBeside};
ghost use Rattle.frame_words.specs.Steps.{stake_of, kept_of, given_of, IsThere, joined};

use crate::cut::{Cut, Named, Unite};
use crate::holder::Holder;
use crate::law::{LookAgain, LookAtAll};
use crate::part::Part;
use crate::table::FrameTable;
use std::marker::Brand;

/// The split at a part that the proof names.
fn cut<P: Named>(t: &FrameTable, h: &mut Holder, _part: &Part) -> Holder
    requires named { _part.now ≡ P.part }
    requires of { IsOf h.old t.now }
    requires there { IsThere P.part (view h.old) }
    requires some_stake { 1 ≤ stake_of P.part }
    requires rest { stake_of P.part < (view h.old).stake }
    ensures kept { view h.new ≡ kept_of P.part (view h.old) }
    ensures given { view result ≡ given_of P.part (view h.old) }
    ensures beside { IsBeside h.new h.old }
    ensures new { IsBeside result h.old }
{
    let seat = t.table.shared.split_seat::<Cut<P>>(&mut h.seat);
    Holder { seat }
}

/// Gives a part of what the holder has, with a stake, to a new holder. Both know what the holder
/// knew. What is named is there: a pile has owned frames of data of count 0; a root is owned, of
/// count 0, or the holder refers to it. The stake is at least 1, and the holder keeps at least 1.
pub fn split(t: &FrameTable, h: &mut Holder, part: &Part) -> Holder
    requires of { IsOf h.old t.now }
    requires there { IsThere part.now (view h.old) }
    requires some_stake { 1 ≤ stake_of part.now }
    requires rest { stake_of part.now < (view h.old).stake }
    ensures kept { view h.new ≡ kept_of part.now (view h.old) }
    ensures given { view result ≡ given_of part.now (view h.old) }
    ensures beside { IsBeside h.new h.old }
    ensures new { IsBeside result h.old }
{
    cut::<Brand>(t, h, part)
}

/// The join of two seats, and a load that tells that what the first then knows is sound.
fn take_in(t: &FrameTable, h: &mut Holder, other: Holder)
    requires of { IsOf h.old t.now }
    requires other_of { IsOf other t.now }
    requires few { length (view h.old).references + length (view other).references
        ≤ most_references }
    ensures view { view h.new ≡ joined (view h.old) (view other) }
    ensures beside { IsBeside h.new h.old }
{
    let Holder { seat } = other;
    t.table.shared.join_seat::<Unite>(&mut h.seat, seat);
    t.table.shared.load::<LookAgain>(&mut h.seat, 0);
}

/// Takes in all that another holder of the table has, with its stake. Both have together at most
/// 16 references.
pub fn join(t: &FrameTable, h: &mut Holder, other: Holder)
    requires of { IsOf h.old t.now }
    requires other_of { IsOf other t.now }
    requires few { length (view h.old).references + length (view other).references
        ≤ most_references }
    ensures view { view h.new ≡ joined (view h.old) (view other) }
    ensures beside { IsBeside h.new h.old }
{
    take_in(t, h, other);
}

/// Tells that a holder with the whole stake, which owns data alone and refers to nothing, owns
/// every frame, each of count 0. Nothing changes.
pub fn tell_whole(t: &FrameTable, h: &mut Holder)
    requires of { IsOf h.old t.now }
    requires alone { OwnsDataAlone (view h.old) }
    requires whole { (view h.old).stake ≡ whole_stake }
    ensures all { OwnsAll (view h.new) }
    ensures view { view h.new ≡ view h.old }
    ensures beside { IsBeside h.new h.old }
{
    t.table.shared.load::<LookAtAll>(&mut h.seat, 0);
}
