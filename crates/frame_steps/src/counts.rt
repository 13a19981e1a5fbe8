//! References to frames, which their counts count.

ghost use Rattle.std.specs.Prelude.{◌≡◌, ◌<◌, length};
ghost use Rattle.frame_model.specs.Views.{Has, reach, IsLoose, most_references};
ghost use Rattle.frame_words.specs.Holders.{view, IsOf, IsBeside};
ghost use Rattle.frame_steps.specs.Counted.{gained, lost, IsNamedTwice};

use crate::law::{Gain, Lose};
use crate::lost::{Lost, lost_of};
use frame_words::{Frame, FrameTable, Holder, meta_place};

/// One reference more to a frame in the holder's reach. Where the holder owns the frame and its
/// count isn't 0, the holder gives up owning it and every owned frame below it.
pub fn gain(t: &FrameTable, h: &mut Holder, f: Frame)
    requires of { IsOf h.old t.now }
    requires reached { Has f.0 (reach (view h.old)) }
    requires few { length (view h.old).references < most_references }
    ensures view { view h.new ≡ gained (view h.old) f.0 }
    ensures beside { IsBeside h.new h.old }
{
    t.table
        .shared
        .fetch_add::<Gain>(&mut h.seat, meta_place(f), 256);
}

/// One reference less to a frame. The answer is `Owned` exactly where the count was 1, else
/// `Shared`. A frame that the holder owned had count 1, one with another name had more, and
/// nothing names one that the holder owns then.
pub fn lose(t: &FrameTable, h: &mut Holder, f: Frame) -> Lost
    requires of { IsOf h.old t.now }
    requires referred { Has f.0 (view h.old).references }
    ensures view { view h.new ≡ lost result (view h.old) f.0 }
    ensures own { Has f.0 (view h.old).owned → result ≡ Lost.Owned }
    ensures shared { IsNamedTwice (view h.old) f.0 → result ≡ Lost.Shared }
    ensures loose { result ≡ Lost.Owned → IsLoose (view h.new) f.0 }
    ensures beside { IsBeside h.new h.old }
{
    let found = t
        .table
        .shared
        .fetch_sub::<Lose>(&mut h.seat, meta_place(f), 256);
    lost_of(found)
}
