//! `call IMAGE`: the image of a file runs once, with the source's bytes as one packet, and the
//! line of its run is written.
#![tactic(auto)]

mod calling;
mod execution;
mod reply;

pub use calling::call;
