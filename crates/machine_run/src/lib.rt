//! Runs: the instructions of a hart over any space, one after another, up to the first stop.
#![tactic(auto)]

mod ends;
mod limits;
mod part_laws;
mod running;
mod steps;
mod turn;

pub use limits::{Limits, Progress, RunEnd};
pub use part_laws::{parts_are_the_run, parts_join};
pub use running::run;
pub use space_api::parts_spend_together;
pub use steps::Steps;

#[cfg(test)]
mod tests;
