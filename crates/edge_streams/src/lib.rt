//! Bytes that come in and go out, as traits with a written meaning, the count of faults that
//! every object of the outside has, sources and sinks in memory that tell what they hold, and
//! thin adapters over readers and writers.
#![tactic(auto)]

mod faults;
mod memory_sink;
mod memory_source;
mod retry;
mod sink;
mod source;
mod std_sink;
mod std_source;

pub use faults::{FaultPlan, one_more};
pub use memory_sink::MemSink;
pub use memory_source::MemSource;
pub use retry::{RETRIES, read_again, read_or_error, write_again, write_or_error};
pub use sink::{Cut, Sink, write_all};
pub use source::{Failed, ReadFault, Source, read_all};
pub use std_sink::StdSink;
pub use std_source::StdSource;

#[cfg(test)]
mod tests;
