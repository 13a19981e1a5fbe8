//! Rounds of single steps on shared frames, so that they can be measured. After each round the
//! holder's view is the one before it.
#![tactic(auto)]

mod kinds;
mod rounds;
mod steps;

pub use frame_words::MOST_FRAMES;
pub use kinds::StepKind;
pub use rounds::{opened, played};

#[cfg(test)]
mod tests;
