//! The one state that every start, park and eviction of a batch goes through: idle contexts, kept
//! layers, images, the free frames, the requests that were started, and the journal that says what
//! was done. Its type keeps that the journal is legal and leads to its lists.
#![tactic(auto)]

mod book;
mod closing;
mod deploying;
mod ending;
mod grounds;
mod keeping;
mod parking;
mod returning;
mod starting;
mod taking;

pub use book::Book;
pub use book_log::Started;
pub use closing::Closed;
pub use deploying::Deployed;
pub use grounds::Grounds;
