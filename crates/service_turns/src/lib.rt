//! A service goes on to its next stop: its context sets out on its next run where it isn't in one,
//! runs on, and what comes of the run's end is done.
#![tactic(auto)]

mod turning;

pub use turning::go_on;
