//! Tests of the calls of a book by calls that are drawn. There is no code here.
#![tactic(auto)]

#[cfg(test)]
mod tests;
