//! The law that a printed instruction word is read back.
#![tactic(auto)]

mod reading_back;

pub use reading_back::text_is_read_back;
