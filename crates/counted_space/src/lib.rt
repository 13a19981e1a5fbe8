//! A space for tests: one over copied pages that holds spares and counts its frames.
#![tactic(auto)]

mod counted;
mod marks;
mod space;

pub use space::CountedSpace;
