//! Writes to frames that a holder owns.

ghost use Rattle.std.specs.Prelude.{◌≡◌, ◌<◌};
ghost use Rattle.frame_model.specs.declared.kind.Kind.TheVariants.{Data};
ghost use Rattle.frame_model.specs.Views.{Has, kind_of, IsLoose};
ghost use Rattle.frame_words.specs.Holders.{view, IsOf, IsBeside};
ghost use Rattle.frame_words.specs.Steps;
ghost use Rattle.frame_words.specs.Steps.{IsClear};

use crate::holder::Holder;
use crate::law::{Dress, Put};
use crate::place::{kind_word, meta_place, word_place};
use crate::table::FrameTable;
use frame_model::{Frame, Kind};

/// Stores a word of a frame of data that the holder owns.
pub fn put_word(t: &FrameTable, h: &mut Holder, f: Frame, i: u16, v: u64)
    requires of { IsOf h.old t.now }
    requires owned { Has f.0 (view h.old).owned }
    requires data { kind_of (view h.old) f.0 ≡ Data }
    requires index { i < 512 }
    ensures view { view h.new ≡ Steps.put (view h.old) f.0 i v }
    ensures beside { IsBeside h.new h.old }
{
    t.table
        .shared
        .store::<Put>(&mut h.seat, word_place(f, i), v);
}

/// Gives a frame that the holder owns another kind. Its count is 0, and so are its words.
pub fn dress(t: &FrameTable, h: &mut Holder, f: Frame, kind: Kind)
    requires of { IsOf h.old t.now }
    requires loose { IsLoose (view h.old) f.0 }
    requires clear { IsClear (view h.old) f.0 }
    ensures view { view h.new ≡ Steps.dressed (view h.old) f.0 kind }
    ensures beside { IsBeside h.new h.old }
{
    t.table
        .shared
        .store::<Dress>(&mut h.seat, meta_place(f), kind_word(kind));
}
