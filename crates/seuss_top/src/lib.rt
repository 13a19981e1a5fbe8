//! The program's commands, over whatever files, source and sinks it is given.
#![tactic(auto)]

mod arguments;
mod command;
mod no_form;

pub use command::{Command, Plain, run_plain};
pub use command_parts::{Refusal, Status, finish};
pub use no_form::NoForm;
