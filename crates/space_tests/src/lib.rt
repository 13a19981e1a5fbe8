//! Tests of what wants frames, over a space that holds spares. There is no code here.
#![tactic(auto)]

#[cfg(test)]
mod tests;
