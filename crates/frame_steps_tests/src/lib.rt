//! Steps of two threads on shared frames, as a test.
#![tactic(auto)]

#[cfg(test)]
mod tests;
