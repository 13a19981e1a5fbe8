//! Output that goes to a sink in pieces, through a buffer of fixed room: nothing in it can want
//! memory, and which front part went out is told where a write fails.
#![tactic(auto)]

mod buffer;
mod passing;
mod piece;

pub use buffer::{Buffer, ROOM};
pub use passing::{flush, push};
pub use piece::{Piece, push_pieces};

#[cfg(test)]
mod tests;
