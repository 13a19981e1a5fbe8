//! One request at work, from its start to its answer: what it is between two steps, and what a step
//! makes of it. Nothing here takes a step.
#![tactic(auto)]

mod service;

pub use service::{InRun, Origin, Service, Turned, Unserved, Work};
