//! Requests, read from a text of request lines.
#![tactic(auto)]

mod fault;
mod packet;
mod read;
mod request;
mod split;
mod words;

pub use fault::{LineFault, LineKind};
pub use read::{MOST_LINES, read_requests};
pub use request::Request;
