//! Runs of contexts cut into parts, over any store that takes no frames, and tests of them.
#![tactic(auto)]

mod playing;
mod running;

pub use playing::{Arrived, Climbed, climb, climb_all, deploy, serve};
pub use running::{Bench, Ended, finish_layer, finish_request};

#[cfg(test)]
mod tests;
