//! Entries and counts of shared frames, by single atomic steps that each keep the rule of
//! `frame_model`.
#![tactic(auto)]

mod counts;
mod entries;
mod law;
mod lost;

pub use counts::{gain, lose};
pub use entries::set_entry;
pub use frame_words::{Frame, FrameTable, Holder};
pub use lost::Lost;

#[cfg(test)]
mod tests;
