//! Batches that were worked out by hand, written by `batch_output`.
#![tactic(auto)]

#[cfg(test)]
mod tests;
