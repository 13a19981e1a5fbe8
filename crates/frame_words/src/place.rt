//! Where the words of a frame lie, and how a meta word spells a kind.

ghost use Rattle.std.specs.Prelude.{◌≡◌, ◌<◌};
ghost use Rattle.frame_model.specs.Words;
ghost use Rattle.frame_model.specs.Words.{kind_number};

use frame_model::{Frame, Kind};

/// The place of the meta word of a frame.
pub fn meta_place(f: Frame) -> usize
    ensures { result ≡ Words.meta_place f.0 }
{
    f.0 as usize * 513
}

/// The place of a frame's word of this number, below 512.
pub fn word_place(f: Frame, i: u16) -> usize
    requires { i < 512 }
    ensures { result ≡ Words.word_place f.0 i }
{
    f.0 as usize * 513 + (i as usize + 1)
}

/// The meta word of a kind at count 0.
pub fn kind_word(kind: Kind) -> u64
    ensures { result ≡ kind_number kind }
{
    match kind {
        Kind::Data => 0,
        Kind::Leaf => 1,
        Kind::Mid => 2,
        Kind::Root => 3,
    }
}
