//! Laws of layers, contexts and replies, for whoever makes and serves them. A function here does
//! nothing: its contract is the law.
#![tactic(auto)]

mod contexts;
mod layers;
mod memory;
mod places;
mod replies;

pub use contexts::{
    contexts_are_settled, contexts_are_valid, contexts_serve_one_by_one, one_context,
};
pub use layers::{each_layer_is_one_or_none, layers_are_there_or_not, stacks_stop_at_one_layer};
pub use memory::{contexts_are_overlays, layers_are_overlays, runs_write_what_they_mark};
pub use places::{
    images_are_places, layers_stand_on_places, one_place, places_are_quiet, places_are_valid,
};
pub use replies::{each_request_is_answered, one_reply, replies_are_exact};
