//! Plans: what a server is to run, as plain data. In `specs/` what holds of each plan, and which
//! layers a layer stands on.
#![tactic(auto)]

mod function;
mod laws;
mod layer;
mod numbers;
mod plan;
mod sound;
mod stacks;

pub use function::PlanFunction;
pub use image_model::Start;
pub use laws::stacks_have_no_layer_twice;
pub use layer::{Packets, PlanLayer};
pub use machine_model::Packet;
pub use numbers::Numbers;
pub use plan::Plan;
pub use space_api::{Names, Text};

#[cfg(test)]
mod tests;
