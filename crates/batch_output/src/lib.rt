//! What a batch came to, written as text to a sink: room for the longest line is made beforehand,
//! and then nothing that is written can want memory.
#![tactic(auto)]

mod line;
mod outcome;
mod room;
mod writing;

pub use outcome::Outcome;
pub use room::make_room;
pub use writing::write_batch;
