//! The numbers of a shelf.

/// How many frames are free, how many images were opened and how many frames they took, how many
/// values are pinned and how many of these are images, and the sum of their spans.
#[derive(Drop)]
pub struct Tally {
    pub free: u32,
    pub opened: u32,
    pub sunk: u32,
    pub values: u64,
    pub images: u64,
    pub spans: u32,
}
