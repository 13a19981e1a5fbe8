//! Files by their names, as a trait with a written meaning, files in memory that tell what
//! they hold, and those of the system.
#![tactic(auto)]

mod files;
mod memory_files;
mod std_files;

pub use files::{FileFault, Files, StoreFault};
pub use memory_files::MemFiles;
pub use std_files::StdFiles;

#[cfg(test)]
mod tests;
