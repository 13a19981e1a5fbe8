//! Laws of frames: how many more a set of written pages takes when it grows.
#![tactic(auto)]

mod laws;

pub use laws::{few_more, need_rises, page_more, write_adds_row, write_takes_few};
