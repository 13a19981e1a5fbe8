//! Spaces over copied pages, and the store that makes them: each page's bytes lie in one block,
//! and are found by a guess that is nearly always right.
#![tactic(auto)]

mod bytes;
mod frozen;
mod frozen_pages;
mod marks;
mod page;
mod page_copies;
mod pages;
mod reads;
mod regions;
mod shelf;
mod space;
mod spares;
mod start_pages;
mod store;
mod writes;

pub use frozen::PlainFrozen;
pub use shelf::PlainShelf;
pub use space::PlainSpace;
pub use spares::PlainSpares;
pub use store::PlainStore;
