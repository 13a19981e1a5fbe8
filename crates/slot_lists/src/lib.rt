//! Idle contexts and kept layers in the order of their last use, each under a slot of its own.
#![tactic(auto)]

mod idle_slots;
mod layer_slots;
mod numbers;

pub use idle_slots::IdleSlots;
pub use layer_slots::LayerSlots;
