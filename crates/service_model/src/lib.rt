//! What a service is to those who take turns at it, and nothing of how it goes: in `specs/` how a
//! book goes on, what stays of a service while others go on, and how many instructions the layers
//! that were built took.
#![tactic(auto)]

pub use book_log::Started;
