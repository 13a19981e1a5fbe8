//! What is played over a store, and the stores that it is played over.

ghost use Rattle.std.specs.Prelude.{◌≡◌, ◌^◌, ◌≤◌, length, true};

use super::starts::starts;
use counted_store::{CountedShelf, CountedStore};
use plain_space::{PlainShelf, PlainStore};
use space_api::Store;
use std::alloc::Global;
use std::marker::Brand;
use std::sync::ledger::{Blank, Ledger};

/// How many parts the whole of all stakes has.
pub const WHOLE: u64 = 4_194_304;

/// The most frames that there are.
pub const MOST_FRAMES: u32 = 131_072;

/// What is played over any store of three starts.
pub trait Play {
    /// What it shows.
    type Seen: Copy + PartialEq;

    /// What it shows over the store. None is for want of memory, or where a call that it rests on
    /// was refused.
    fn play<S: Store>(&self, alloc: Global, store: &S, shelf: &mut S::Shelf) -> Option<Self::Seen>
        requires starts { length (S.starts store.now) ≡ 3 }
        requires stake { S.Space.takes_frames ≡ true →
            2 ^ 22 ≤ (S.Shelf.stocked shelf.old).stake };
}

/// What a play shows over copied pages, where so many frames are said to be free.
fn copied<P: Play>(alloc: Global, frames: u32, play: &P) -> Option<P::Seen> {
    let starts = starts(alloc)?;
    let store = PlainStore::open(&starts).ok()?;
    let mut shelf = PlainShelf::new(frames.min(MOST_FRAMES));
    play.play(alloc, &store, &mut shelf)
}

/// What a play shows over so many frames, over a ledger of its own.
fn counted_by<P: Play, L: Ledger + Send + Sync>(
    alloc: Global,
    frames: u32,
    play: &P,
    blank: Blank,
) -> Option<P::Seen>
    requires name { blank.name ≡ L.name }
    requires parts { blank.parts ≡ L.parts }
    requires whole { blank.parts ≡ 2 ^ 22 }
{
    let starts = starts(alloc)?;
    let store = CountedStore::<L>::open(&starts);
    let mut shelf = CountedShelf::<L>::new(frames.min(MOST_FRAMES), WHOLE, blank);
    play.play(alloc, &store, &mut shelf)
}

/// What a play shows over so many frames.
fn counted<P: Play>(alloc: Global, frames: u32, play: &P) -> Option<P::Seen> {
    counted_by::<P, Brand>(alloc, frames, play, Blank::new(WHOLE))
}

/// The place of the first row whose play over copied pages, where so many frames are said to be
/// free, doesn't show what stands there.
pub fn wrong_copied<P: Play>(alloc: Global, rows: &[(u32, P, P::Seen)]) -> Option<usize> {
    for (place, (frames, play, seen)) in rows.iter().enumerate() {
        if copied(alloc, *frames, play) != Some(*seen) {
            return Some(place);
        }
    }
    None
}

/// The place of the first row whose play over so many frames doesn't show what stands there.
pub fn wrong_counted<P: Play>(alloc: Global, rows: &[(u32, P, P::Seen)]) -> Option<usize> {
    for (place, (frames, play, seen)) in rows.iter().enumerate() {
        if counted(alloc, *frames, play) != Some(*seen) {
            return Some(place);
        }
    }
    None
}
