//! Calls of a played book as data, one driver that makes them over copied pages or over counted
//! frames, and what is seen of the book, for tests that are tables.
#![tactic(auto)]

mod books;
mod player;
mod seen;
mod steps;

pub use books::{IMAGES, Over, Shape, seen_over, sizes_of};
pub use seen::{After, Seen};
pub use steps::{Step, Told, read_step};
