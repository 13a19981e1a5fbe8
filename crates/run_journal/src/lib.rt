//! The journal of a batch, printed, read and judged.
#![tactic(auto)]

mod conditions;
mod context_events;
mod current;
mod journal;
mod layer_events;
mod numbered;
mod owing;
mod recent;
mod request_events;
mod stacks;
mod stepping;
mod verdict;
mod whole;

pub use event_text::{lines_have_one_event, print_event, read_event};
pub use journal::Journal;
pub use journal_model::{
    Answer, ContextState, Duty, End, Event, FunctionStack, How, Judged, Owed, Packets,
    RequestState, Sizes, Standing, Totals, Why,
};
pub use verdict::judge;
