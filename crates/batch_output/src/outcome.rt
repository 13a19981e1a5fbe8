//! What a batch came to.

use journal_model::{Answer, Event, Totals};

/// What a batch came to.
#[derive(Drop)]
pub struct Outcome {
    /// The answers, in the order in which they are written.
    pub answers: Vec<Answer>,
    /// The journal, from its first event on.
    pub events: Vec<Event>,
    /// The totals at the journal's end.
    pub totals: Totals,
}
