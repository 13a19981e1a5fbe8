//! The lines that a batch reads and writes: requests, and replies with their totals.
#![tactic(auto)]

pub use reply_lines::{print_reply, print_totals, read_reply};
pub use request_lines::{LineFault, LineKind, Request, read_requests};
