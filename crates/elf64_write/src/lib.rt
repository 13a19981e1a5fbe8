//! An image, written as an ELF file that is read back to it.
#![tactic(auto)]

mod write;

pub use write::write_image;
