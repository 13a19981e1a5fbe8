//! A store for tests: it counts frames over copied pages.
#![tactic(auto)]

mod below;
mod claim;
mod counted;
mod frozen;
mod images;
mod marks;
mod page_set;
mod shelf;
mod space;
mod spares;
mod store;
mod tally;
mod whole;

pub use frozen::CountedFrozen;
pub use shelf::CountedShelf;
pub use space::StakedSpace;
pub use spares::CountedSpares;
pub use store::CountedStore;
