//! Images and how they lie in memory: a program's segments, and the entry, regions and pages
//! that a machine starts with, as plain data; in `specs/` what they mean. `start_laws` shows
//! that the regions and pages of a start are those of its image.
#![tactic(auto)]

mod bytes;
mod image;
mod limits;
mod region;
mod start;
mod start_laws;
mod valid;

pub use bytes::Bytes;
pub use image::{Image, Segment, Segments};
pub use limits::{FILE_LIMIT, PAGE_SIZE};
pub use region::{PageBytes, Region};
pub use start::Start;
pub use start_laws::{
    one_regions, start_has_bytes, start_has_permissions, start_is_joined, start_is_sound,
};
