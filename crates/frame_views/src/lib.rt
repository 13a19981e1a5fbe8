//! What each step on shared frames makes of the view of the holder that takes it. A function here
//! does nothing: its contract is a law. The lemmas behind them stand in `proofs/`, for the crates
//! above to cite.
#![tactic(auto)]

mod pages;
mod parts;

pub use pages::{dresses_change_one_kind, entries_change_one_word, puts_change_one_word};
pub use parts::{
    entries_trade_references, gains_give_up_trees, joins_keep_what_was_known, loses_give_back,
    piles_go_alone, roots_go_whole,
};
