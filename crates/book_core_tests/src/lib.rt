//! A book that is played by calls that check before they call, with stand-ins for contexts and
//! layers, so that tests of the book need no proof.
#![tactic(auto)]

mod answers;
mod beginning;
mod checks;
mod drawing;
mod layering;
mod opening;
mod parking;
mod play;
mod played;
mod replay;
mod sizes;
mod stored;
mod waiter;

pub use layering::Layered;
pub use parking::Rested;
pub use play::{Released, Served};
pub use played::Played;
pub use stored::Stored;
pub use waiter::Waiter;
