//! What is read of assembler text: its segments, labels and entry, up to its first faulty line.
#![tactic(auto)]

mod labels;
mod line;
mod part;
mod piece;
mod program;
mod reading;

pub use labels::Labels;
pub use part::Part;
pub use piece::{Piece, byte_count};
pub use program::Entry;
pub use reading::{LineFault, Reading, read};
