//! The calls of contexts and layers in their order, over any store that takes no frames, and
//! tests of them.
#![tactic(auto)]

mod driving;
mod limits;

pub use driving::{Climbed, climb, deploy, image, serve};
pub use limits::{Asked, Bench, Ended};

#[cfg(test)]
mod tests;
