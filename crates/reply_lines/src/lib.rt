//! The lines of replies and of totals, printed, and those of replies read.
#![tactic(auto)]

mod ending;
mod laws;
mod parse;
mod print;
mod service;

pub use laws::lines_have_one_reply;
pub use parse::read_reply;
pub use print::{print_reply, print_totals};
