//! A context that is to begin, or is between runs, sets out on its next run: that of the layer
//! above it, or that of its request.
#![tactic(auto)]

mod setting_out;

pub use setting_out::{SetOut, set_out};
