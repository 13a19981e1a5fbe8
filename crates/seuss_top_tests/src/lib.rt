//! Tests of whole commands over files, a source and sinks in memory. There is no code here.
#![tactic(auto)]

#[cfg(test)]
mod tests;
