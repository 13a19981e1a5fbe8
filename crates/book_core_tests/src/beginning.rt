//! A book is opened to be played.

ghost use Rattle.std.specs.Prelude.{◌≡◌, ◌≤◌, true, length};
ghost use Rattle.space_api.specs.Holding.{if_taken};
ghost use Rattle.book_core_tests.specs.Images.{IsFresh};

use crate::opening::all_opened;
use crate::played::Played;
use crate::sizes::is_openable;
use book_core::Book;
use journal_model::Sizes;
use machine_model::Memory;
use space_api::{Refused, Stock, Store};
use std::alloc::Global;

impl<T: Store> Played<T> {
    /// A book of no events, with the images of the first starts, so many. None where the shelf has
    /// too few frames for the images, or other than so many as the sizes say once they are open,
    /// and where a book may not have these sizes. The only error is want of memory.
    pub fn open(
        alloc: Global,
        store: &T,
        sizes: Sizes,
        mut shelf: T::Shelf,
        count: u16,
    ) -> Result<Option<Played<T>>, Memory>
        requires images { count ≤ length (T.starts store.now) }
        requires root { sizes.root ≡ if_taken T.Space.takes_frames 1 }
        requires fresh { T.Space.takes_frames ≡ true → IsFresh count (T.Shelf.stocked shelf) }
    {
        let images = match all_opened(alloc, store, &mut shelf, count) {
            Ok(images) => images,
            Err(Refused::Frames) => return Ok(None),
            Err(Refused::Memory) => return Err(Memory),
        };
        let fits = is_openable(&sizes, images.len());
        if !fits {
            return Ok(None);
        }
        let free = shelf.free();
        if free != sizes.frames {
            return Ok(None);
        }
        let book = Book::open(alloc, sizes, shelf, images)?;
        Ok(Some(Played { alloc, book }))
    }
}
