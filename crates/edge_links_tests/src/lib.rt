//! Tests of connections and doors, in memory and over the loopback. There is no code here.
#![tactic(auto)]

#[cfg(test)]
mod tests;
