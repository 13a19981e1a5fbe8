//! What a right batch is, and nothing of how one is made: in `specs/` what a batch is given, what
//! the line of a request says, what the journal owes the lines, and the text that a batch writes.
//! `laws` shows that these facts stay when the journal grows, and that a journal fixes its lines
//! and says which of them end with `frames` or `memory`.
#![tactic(auto)]

mod laws;

pub use journal_model::{Answer, Event};
pub use laws::{batches_are_fixed, batches_grow, ends_are_the_journals};
pub use plan_model::Plan;
pub use request_lines::Request;
pub use space_api::Given;
