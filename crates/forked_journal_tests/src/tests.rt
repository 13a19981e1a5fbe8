//! Journals that fork, what a row of their table says, and numbers that no line has.

mod alone;
mod forks;
mod numbers;
mod rows;
