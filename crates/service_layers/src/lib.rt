//! The run of a layer ends: the layer is kept and its context goes on above it, or the request is
//! closed.
#![tactic(auto)]

mod climbing;

pub use climbing::end_layer;
