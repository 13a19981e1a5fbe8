//! Plans at the limits of their tables and files, tried on `plan_text`.
#![tactic(auto)]

#[cfg(test)]
mod files;
#[cfg(test)]
mod tests;
