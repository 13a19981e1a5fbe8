//! The run of a request ends: the request is answered, and its context is parked or over.
#![tactic(auto)]

mod requesting;

pub use requesting::end_request;
