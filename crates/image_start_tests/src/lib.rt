//! Starts of images that were worked out by hand, tried on `image_start`.
#![tactic(auto)]

#[cfg(test)]
mod limit_tests;
#[cfg(test)]
mod tests;
