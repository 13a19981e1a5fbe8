//! Rounds of calls of a book over copied pages, so that they can be measured: requests are
//! started, contexts are taken and parked.
#![tactic(auto)]

mod books;
mod contexts;
mod rounds;
mod sizes;

pub use books::{EVENTS, played};

#[cfg(test)]
mod tests;
