//! The hypercalls over any space: what a run takes in and writes, with all the room that it
//! takes held before it, and the call at which a hardware thread stands.
#![tactic(auto)]

mod call_end;
mod hypercall;
mod ports;
mod reading;

pub use call_end::CallEnd;
pub use hypercall::call;
pub use ports::Ports;

#[cfg(test)]
mod tests;
