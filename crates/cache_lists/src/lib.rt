//! The two caches as lists of limited room, the most recently used first: the idle contexts, and
//! the layers that are kept. Each entry has the slot in which its owner keeps what it names.
#![tactic(auto)]

mod idle_list;
mod layer_list;
mod room;

pub use idle_list::{IdleContext, IdleList};
pub use layer_list::LayerList;

#[cfg(test)]
mod tests;
