//! Tests of the system's files at the longest that is read. There is no code here.
#![tactic(auto)]

#[cfg(test)]
mod tests;
