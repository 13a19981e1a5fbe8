//! Tests of whole commands that find no memory.
#![tactic(auto)]

mod scarce;
#[cfg(test)]
mod tests;

pub use scarce::Scarce;
