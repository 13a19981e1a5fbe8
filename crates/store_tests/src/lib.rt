//! Tests of each call of a store, over copied pages and over frames that are counted. There is no
//! code here.
#![tactic(auto)]

#[cfg(test)]
mod tests;
