//! Laws of journals, for whoever appends to one. A function here does nothing: its contract is the
//! law.
#![tactic(auto)]

mod appending;
mod layers;
mod lists;
mod names;
mod states;
mod weights;

pub use appending::{journals_follow_one_another, legal_journals_are_judged_so};
pub use layers::{highest_kept_is_one, layers_stand_above_one_place, rising_stacks_are_sized};
pub use lists::{a_full_list_loses_its_last, idle_contexts_are_keyed, layers_are_listed};
pub use names::{closed_requests_stay, events_leave_what_they_do_not_name};
pub use states::{
    answers_fix_the_line, contexts_are_few, contexts_serve_in_order, earlier_requests_stay,
    idle_contexts_are_listed, open_requests_are_served, refusals_fix_the_line,
};
pub use weights::sums_change_by_one_item;
