//! Numbers that hold of every image.

/// How many bytes a page of memory has.
pub const PAGE_SIZE: u64 = 4096;

/// The most bytes of a file that is read. A file with more is refused.
pub const FILE_LIMIT: u64 = 16_777_216;
