//! Journals of many events, contexts and layers, tried on `run_journal`.
#![tactic(auto)]

#[cfg(test)]
mod tests;
