//! Laws of a batch: what holds of it while its services take turns, and that it is right where each
//! of its requests has its line. A function here does nothing: its contract is the law.
#![tactic(auto)]

mod ending;
mod opening;
mod staying;
mod stepping;
mod ticking;

pub use ending::lines_make_a_batch;
pub use opening::requests_are_started_in_order;
pub use staying::services_stay_under_way;
pub use stepping::steps_keep_a_batch;
pub use ticking::ticks_are_counted;
