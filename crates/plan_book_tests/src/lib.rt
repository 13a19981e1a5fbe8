//! Books of plans that are opened and taken apart, over any store that takes no frames, and tests
//! of them over copied pages.
#![tactic(auto)]

mod opened;
mod played;

pub use opened::{Opened, open_and_close};
pub use played::{Played, play_first};

#[cfg(test)]
mod tests;
