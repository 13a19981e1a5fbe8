//! What all commands share: what they are given, the refusals that each may meet, how a command
//! ends, and the steps by which each reads its source and writes its output.
#![tactic(auto)]

mod cause;
mod ending;
mod given;
mod image_cause;
mod refusal;
mod steps;

pub use cause::{Cause, Line, Status, whole_line};
pub use ending::{finish, report};
pub use given::{Given, Shows};
pub use image_cause::{NoImage, image_of};
pub use refusal::Refusal;
pub use steps::{read_source, write_output};
