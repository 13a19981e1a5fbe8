//! Tests of `slot_lists`. There is no code here.
#![tactic(auto)]

#[cfg(test)]
mod tests;
