//! What shared frames mean, and nothing of how they are reached: kinds and views as plain data,
//! and in `specs/` the rule over the words of the frames and the views of all holders.
#![tactic(auto)]

mod frame;
mod holding;
mod kind;
mod rule_laws;
mod view;

pub use frame::Frame;
pub use holding::{Holding, Tally};
pub use kind::Kind;
pub use rule_laws::{
    counts_never_wrap, every_frame_is_reached, lone_owners_have_what_no_other_reaches,
    loose_frames_are_uncounted, new_tables_meet_the_rule, owned_frames_are_apart, reach_is_closed,
    uncounted_frames_have_one_owner, views_are_sound, views_tell_counts, views_tell_the_words,
    whole_stakes_own_all,
};
pub use view::{Known, View};
