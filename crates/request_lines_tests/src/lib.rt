//! Texts of request lines, tried on `request_lines`.
#![tactic(auto)]

#[cfg(test)]
mod tests;
