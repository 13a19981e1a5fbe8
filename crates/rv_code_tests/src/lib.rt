//! Instruction words, tried on `rv_code`.
#![tactic(auto)]

#[cfg(test)]
mod tests;
