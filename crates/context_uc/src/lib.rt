//! Contexts and layers: a context runs a function of a plan over any space, a layer is what it had
//! when it came to a trigger. Their types keep that they are the model's of their plan.
#![tactic(auto)]

mod capturing;
mod context;
mod contexts_told;
mod layer;
mod layers_told;
mod run_laws;

pub use capturing::{Taken, capture, end, release, strip};
pub use context::{Context, begin};
pub use layer::Layer;
pub use run_laws::{reached_layers_are_captured, rested_requests_are_served};
