//! Looks at words that a holder reaches.

ghost use Rattle.std.specs.Prelude.{◌≡◌, ◌/◌, ◌%◌, ◌<◌, ◌≤◌};
ghost use Rattle.frame_model.specs.Words.{kind_number};
ghost use Rattle.frame_model.specs.Views.{Has, kind_of, word_of, reach, name_count};
ghost use Rattle.frame_words.specs.Holders.{view, IsOf, IsBeside};

use crate::holder::Holder;
use crate::law::{Look, LookAtMeta};
use crate::place::{meta_place, word_place};
use crate::table::FrameTable;
use frame_model::Frame;

/// The word of this number, below 512, of a frame in the holder's reach. Nothing changes.
pub fn peek_word(t: &FrameTable, h: &mut Holder, f: Frame, i: u16) -> u64
    requires of { IsOf h.old t.now }
    requires reached { Has f.0 (reach (view h.old)) }
    requires index { i < 512 }
    ensures word { result ≡ word_of (view h.old) f.0 i }
    ensures view { view h.new ≡ view h.old }
    ensures beside { IsBeside h.new h.old }
{
    t.table.shared.load::<Look>(&mut h.seat, word_place(f, i))
}

/// The meta word of a frame in the holder's reach: its kind in the low 8 bits is exact. The count
/// above them is exact where the holder owns the frame, and else may be old, but is at least the
/// number of the holder's references to it and of the entries of tables that it owns which name
/// it. Nothing changes.
pub fn peek_meta(t: &FrameTable, h: &mut Holder, f: Frame) -> u64
    requires of { IsOf h.old t.now }
    requires reached { Has f.0 (reach (view h.old)) }
    ensures kind { result % 256 ≡ kind_number (kind_of (view h.old) f.0) }
    ensures least { name_count (view h.old) f.0 ≤ result / 256 }
    ensures own { Has f.0 (view h.old).owned → result / 256 ≡ name_count (view h.old) f.0 }
    ensures view { view h.new ≡ view h.old }
    ensures beside { IsBeside h.new h.old }
{
    t.table
        .shared
        .load::<LookAtMeta>(&mut h.seat, meta_place(f))
}
