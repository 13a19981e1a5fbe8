//! Images and starts, tried on `image_model`.
#![tactic(auto)]

#[cfg(test)]
mod tests;
