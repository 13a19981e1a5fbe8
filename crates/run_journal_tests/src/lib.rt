//! Journals and lines of events whose answers were worked out by hand, tried on `run_journal`.
#![tactic(auto)]

#[cfg(test)]
mod tests;
