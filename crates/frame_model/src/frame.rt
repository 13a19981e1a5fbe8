//! Names of frames.

/// Names a frame by its number, which counts from 0.
#[derive(Clone, Copy, Debug, PartialEq, Eq)]
pub struct Frame(pub u32);
