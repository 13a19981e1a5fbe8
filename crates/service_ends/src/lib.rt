//! How a service ends: its request is answered, or found no memory, and its context is parked or
//! over. Each end closes the request with its line.
#![tactic(auto)]

mod answering;
mod wanting;

pub use answering::{answer_with, finish_request, is_parked, park_request};
pub use wanting::{give_up, give_up_waiting, lose_context};
