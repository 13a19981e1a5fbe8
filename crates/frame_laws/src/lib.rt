//! Laws of the steps on shared frames: what a holder knows of a frame that it doesn't own stays
//! under each step of its own. A step of another holder changes no view of it at all, and the rule
//! says that its view is what the words hold. So no word of such a frame changes under it.
#![tactic(auto)]

mod laws;
mod runs;

pub use laws::{
    cut_views_know_what_was_known, gains_of_shared_frames_give_up_nothing,
    joined_views_know_what_was_known, owned_words_alone_change, references_change_no_word,
};
pub use runs::{shared_frames_stay, steps_change_owned_frames_alone, steps_keep_the_rule};
