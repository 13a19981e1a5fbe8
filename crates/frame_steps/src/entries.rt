//! Entries of tables that a holder owns.

ghost use Rattle.std.specs.Prelude.{◌≡◌, ◌<◌};
ghost use Rattle.frame_model.specs.Words.{kind_number};
ghost use Rattle.frame_model.specs.Views.{Has, kind_of};
ghost use Rattle.frame_words.specs.Holders.{view, IsOf, IsBeside};
ghost use Rattle.frame_steps.specs.Counted.{entered, MayStand, HasRoom};

use crate::law::Enter;
use frame_words::{Frame, FrameTable, Holder, word_place};

/// Stores an entry, or 0, as the word of this number, below 512, of a table that the holder owns.
/// A reference of the holder becomes the entry, and what the old entry named becomes a
/// reference. The entry has the form of its table's kind, and names a frame of the kind below.
pub fn set_entry(t: &FrameTable, h: &mut Holder, f: Frame, i: u16, entry: u64)
    requires of { IsOf h.old t.now }
    requires owned { Has f.0 (view h.old).owned }
    requires a_table { 0 < kind_number (kind_of (view h.old) f.0) }
    requires index { i < 512 }
    requires stands { MayStand (view h.old) f.0 entry }
    requires room { HasRoom (view h.old) f.0 i entry }
    ensures view { view h.new ≡ entered (view h.old) f.0 i entry }
    ensures beside { IsBeside h.new h.old }
{
    t.table
        .shared
        .store::<Enter>(&mut h.seat, word_place(f, i), entry);
}
