//! Plans whose answers were worked out by hand, tried on `plan_text`.
#![tactic(auto)]

#[cfg(test)]
mod fault_tests;
#[cfg(test)]
mod order_tests;
#[cfg(test)]
mod tests;
