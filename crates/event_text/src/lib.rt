//! The events of a journal, printed as lines and read from lines.
#![tactic(auto)]

mod field;
mod kind;
mod laws;
mod print;
mod read;

pub use laws::lines_have_one_event;
pub use print::print_event;
pub use read::read_event;
