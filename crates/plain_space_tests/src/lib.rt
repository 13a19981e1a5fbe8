//! Copied pages, tried on `plain_space`.
#![tactic(auto)]

#[cfg(test)]
mod tests;
