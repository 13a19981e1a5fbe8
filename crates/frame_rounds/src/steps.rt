//! What is done before the rounds of each kind, and one round of each. A round answers what it saw
//! of its own steps.

ghost use Rattle.std.specs.Prelude.{◌≡◌};
ghost use Rattle.frame_model.specs.Views.{first_view};
ghost use Rattle.frame_words.specs.Holders.{view, IsOf};
ghost use Rattle.frame_rounds.specs.Rows.{put_view, IsPut, dressed_view, referred_view};
ghost use Rattle.frame_rounds.specs.Rows.{filled_view, cut_view};

use frame_steps::{gain, lose, set_entry};
use frame_words::{
    Frame, FrameTable, Holder, Kind, Part, dress, join, peek_meta, peek_word, put_word, split,
};

/// A store, before the rounds.
pub fn first_put(t: &FrameTable, h: &mut Holder)
    requires of { IsOf h.old t.now }
    requires view { view h.old ≡ first_view 4 }
    ensures of { IsOf h.new t.now }
    ensures put { view h.new ≡ put_view }
{
    put_word(t, h, Frame(0), 7, 99);
}

/// A load, and the word.
pub fn peek_round(t: &FrameTable, h: &mut Holder) -> u64
    requires of { IsOf h.old t.now }
    requires view { view h.old ≡ put_view }
    ensures of { IsOf h.new t.now }
    ensures same { view h.new ≡ put_view }
{
    peek_word(t, h, Frame(0), 7)
}

/// A store, and the word then.
pub fn put_round(t: &FrameTable, h: &mut Holder, v: u64) -> u64
    requires of { IsOf h.old t.now }
    requires put { IsPut (view h.old) }
    ensures of { IsOf h.new t.now }
    ensures put { IsPut (view h.new) }
{
    put_word(t, h, Frame(0), 7, v);
    peek_word(t, h, Frame(0), 7)
}

/// A kind, before the rounds.
pub fn first_dress(t: &FrameTable, h: &mut Holder)
    requires of { IsOf h.old t.now }
    requires view { view h.old ≡ first_view 4 }
    ensures of { IsOf h.new t.now }
    ensures dressed { view h.new ≡ dressed_view }
{
    dress(t, h, Frame(1), Kind::Data);
}

/// A kind, and the old one. Answers the meta word between them.
pub fn dress_round(t: &FrameTable, h: &mut Holder) -> u64
    requires of { IsOf h.old t.now }
    requires view { view h.old ≡ dressed_view }
    ensures of { IsOf h.new t.now }
    ensures same { view h.new ≡ dressed_view }
{
    dress(t, h, Frame(1), Kind::Leaf);
    let seen = peek_meta(t, h, Frame(1));
    dress(t, h, Frame(1), Kind::Data);
    seen
}

/// A reference, and none. Answers the meta word between them.
pub fn gain_round(t: &FrameTable, h: &mut Holder) -> u64
    requires of { IsOf h.old t.now }
    requires view { view h.old ≡ first_view 4 }
    ensures of { IsOf h.new t.now }
    ensures same { view h.new ≡ first_view 4 }
{
    gain(t, h, Frame(0));
    let seen = peek_meta(t, h, Frame(0));
    lose(t, h, Frame(0));
    seen
}

/// A leaf table and a reference, before the rounds.
pub fn first_entry(t: &FrameTable, h: &mut Holder)
    requires of { IsOf h.old t.now }
    requires view { view h.old ≡ first_view 4 }
    ensures of { IsOf h.new t.now }
    ensures referred { view h.new ≡ referred_view }
{
    dress(t, h, Frame(1), Kind::Leaf);
    gain(t, h, Frame(0));
}

/// An entry, and none. Answers the word between them.
pub fn entry_round(t: &FrameTable, h: &mut Holder) -> u64
    requires of { IsOf h.old t.now }
    requires view { view h.old ≡ referred_view }
    ensures of { IsOf h.new t.now }
    ensures same { view h.new ≡ referred_view }
{
    set_entry(t, h, Frame(1), 0, 0x1d7);
    let seen = peek_word(t, h, Frame(1), 0);
    set_entry(t, h, Frame(1), 0, 0);
    seen
}

/// A word of the frame that goes and comes back, before the rounds.
pub fn first_fill(t: &FrameTable, h: &mut Holder)
    requires of { IsOf h.old t.now }
    requires view { view h.old ≡ first_view 4 }
    ensures of { IsOf h.new t.now }
    ensures filled { view h.new ≡ filled_view }
{
    put_word(t, h, Frame(3), 7, 99);
}

/// A split and a join, before the rounds.
pub fn first_cut(t: &FrameTable, h: &mut Holder)
    requires of { IsOf h.old t.now }
    requires view { view h.old ≡ filled_view }
    ensures of { IsOf h.new t.now }
    ensures joined { view h.new ≡ cut_view }
{
    let other = split(
        t,
        h,
        &Part::Pile {
            first: Frame(3),
            count: 1,
            stake: 5,
        },
    );
    join(t, h, other);
}

/// A split and a join. Answers a word that the other holder sees between them.
pub fn cut_round(t: &FrameTable, h: &mut Holder) -> u64
    requires of { IsOf h.old t.now }
    requires view { view h.old ≡ cut_view }
    ensures of { IsOf h.new t.now }
    ensures same { view h.new ≡ cut_view }
{
    let mut other = split(
        t,
        h,
        &Part::Pile {
            first: Frame(3),
            count: 1,
            stake: 5,
        },
    );
    let seen = peek_word(t, &mut other, Frame(3), 7);
    join(t, h, other);
    seen
}
