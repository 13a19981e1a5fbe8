//! The journal of a batch as it grows, with the requests that were started: each event may stand
//! where it does.
#![tactic(auto)]

mod log;
mod started;

pub use log::Log;
pub use started::Started;
