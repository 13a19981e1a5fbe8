//! Journals that go on from one front in several ways, tried on `run_journal`.
#![tactic(auto)]

#[cfg(test)]
mod tests;
