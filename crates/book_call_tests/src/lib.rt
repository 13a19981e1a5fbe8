//! Tests of the calls of a book, by a book that is played. There is no code here.
#![tactic(auto)]

#[cfg(test)]
mod tests;
