//! A book that is played.

ghost use Rattle.std.specs.Prelude.{◌≡◌};
ghost use Rattle.space_api.specs.Holding.{if_taken};

use crate::stored::Stored;
use crate::waiter::Waiter;
use book_core::Book;
use space_api::Store;
use std::alloc::Global;
use std::marker::Brand;

/// A book whose calls check at run time what the book's own calls require.
#[derive(Drop)]
pub struct Played<T: Store> {
    pub(crate) alloc: Global,
    pub(crate) book: Book<Waiter<T::Space>, Stored<T::Frozen>, T::Shelf, Brand>,
    ghost rooted: { book.sizes.root ≡ if_taken T.Space.takes_frames 1 },
}
