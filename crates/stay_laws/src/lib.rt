//! Laws of the steps of a service for whoever takes turns with others: what a step leaves of them,
//! how their requests stand, and what a batch asks of its events. A function here does nothing: its
//! contract is the law.
#![tactic(auto)]

mod leaving;
mod parking;
mod requests;
mod settling;

pub use leaving::steps_leave_others;
pub use parking::steps_park_and_build;
pub use requests::requests_open_and_close;
pub use settling::services_stay_settled;
