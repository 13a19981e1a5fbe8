//! The part of the flow of a batch that concerns one context alone: where it begins, the runs of
//! the layers above it, in parts, and those of its requests. Over any store that takes no frames.
#![tactic(auto)]

mod beginning;
mod layer_end;
mod layer_run;
mod next;
mod part;
mod replying;
mod request_run;

pub use beginning::{Spot, begin_at};
pub use layer_end::{LayerEnd, after_layer};
pub use layer_run::{LayerRun, begin_layer};
pub use next::next_layer;
pub use part::PartEnd;
pub use replying::{RunReply, after_request, missed_reply};
pub use request_run::{RequestRun, begin_request};
