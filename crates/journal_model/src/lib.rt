//! What the journal of a batch means, and nothing of how it is kept: events, answers and sizes as
//! plain data, and in `specs/` how an event is spelled in a line and which journals are legal.
//! `laws` shows that the definitions mean what they should.
#![tactic(auto)]

mod answer;
mod event;
mod laws;
mod sizes;
mod state;

pub use answer::{Answer, End, How, Packets, Why};
pub use event::Event;
pub use laws::{beginnings_are_legal, frames_are_counted, states_are_sound, verdicts_are_right};
pub use sizes::{FunctionStack, Sizes};
pub use state::{ContextState, Duty, Judged, Owed, RequestState, Standing, Totals};

#[cfg(test)]
mod tests;
