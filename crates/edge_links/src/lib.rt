//! Connections and where they come from, as traits with a written meaning, links and doors in
//! memory that tell what they hold, and thin adapters over the real ones.
#![tactic(auto)]

mod door;
mod link;
mod memory_door;
mod memory_link;
mod std_door;
mod std_link;

pub use door::Door;
pub use link::Link;
pub use memory_door::MemDoor;
pub use memory_link::MemLink;
pub use std_door::StdDoor;
pub use std_link::StdLink;
