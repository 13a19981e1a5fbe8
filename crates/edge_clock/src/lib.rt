//! The time, and what stands between the start and the answer of a request: traits with a written
//! meaning, objects in memory, and the clock of the system. None of them can fail.
#![tactic(auto)]

mod clock;
mod gate;
mod memory_clock;
mod std_clock;

pub use clock::Clock;
pub use gate::{Gate, MemGate};
pub use memory_clock::MemClock;
pub use std_clock::StdClock;

#[cfg(test)]
mod tests;
