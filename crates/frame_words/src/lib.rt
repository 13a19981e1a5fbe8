//! Frames that many holders reach, counted and given back, by single atomic steps. Each step
//! keeps the rule of `frame_model` over the words and the views of all holders.
#![tactic(auto)]

mod cut;
mod holder;
mod law;
mod opening;
mod part;
mod peek;
mod place;
mod sharing;
mod table;
mod write;

pub use frame_model::{Frame, Holding, Kind, View};
pub use holder::Holder;
pub use machine_model::Memory;
pub use opening::MOST_FRAMES;
pub use part::Part;
pub use peek::{peek_meta, peek_word};
pub use place::{meta_place, word_place};
pub use sharing::{join, split, tell_whole};
pub use table::FrameTable;
pub use write::{dress, put_word};

#[cfg(test)]
mod tests;
