//! How a service begins: a request is started, and finds an idle context, or the space of a new
//! one.
#![tactic(auto)]

mod finding;
mod starting;

pub use finding::find_service;
pub use starting::start_request;
