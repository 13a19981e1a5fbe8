//! One instruction of a hart over a space: what its word does, by the definitions of
//! `machine_model`, or how it was refused with nothing changed.
#![tactic(auto)]

mod instruction;
mod values;

pub use instruction::{StepEnd, step};
pub use space_api::{Hart, Space};

#[cfg(test)]
mod tests;
