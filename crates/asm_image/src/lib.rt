//! The image of assembler text that was read, and the faults that show once the addresses of all
//! labels are known.
#![tactic(auto)]

mod bytes;
mod distance;
mod faults;
mod image;
mod sizes;
mod uses;

pub use faults::lines_fault;
pub use image::valid_image;
