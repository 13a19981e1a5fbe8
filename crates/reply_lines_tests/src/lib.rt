//! Lines of replies and of totals that were worked out by hand, tried on `reply_lines`.
#![tactic(auto)]

#[cfg(test)]
mod tests;
