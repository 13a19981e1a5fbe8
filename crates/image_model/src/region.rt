//! Regions of pages, and the bytes of a page.

use crate::bytes::Bytes;

/// Neighbouring pages of 4,096 bytes that may be accessed in the same ways.
#[derive(Clone, Copy, Debug, PartialEq, Eq)]
pub struct Region {
    /// The number of the first page, its address divided by 4,096.
    pub page: u64,
    /// How many pages they are.
    pub count: u64,
    /// Whether they may be read, written and executed.
    pub r: bool,
    pub w: bool,
    pub x: bool,
}

/// A page with its bytes.
#[derive(Debug, Drop)]
pub struct PageBytes {
    /// The number of the page, its address divided by 4,096.
    pub page: u64,
    /// Its 4,096 bytes.
    pub bytes: Bytes,
}
