//! Each call of a store and of a space once, with values worked by hand.

mod many;
mod spaces;
mod starts;
mod stores;
