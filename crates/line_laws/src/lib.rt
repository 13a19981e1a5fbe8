//! Laws of lines: what a batch's journal makes of its requests' lines, of its totals, and of the
//! whole batch. A function here does nothing: its contract is the law.
#![tactic(auto)]

mod batches;
mod lines;
mod services;
mod showing;
mod staying;
mod totals;

pub use batches::batches_are_right;
pub use lines::answers_make_lines;
pub use services::services_are_known;
pub use showing::replies_are_shown;
pub use staying::lines_stay;
pub use totals::totals_are_counted;
