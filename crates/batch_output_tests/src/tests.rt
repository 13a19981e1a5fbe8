//! The text of batches, of which each line was worked out by hand.

mod failing;
mod limits;
mod made;
mod text;
