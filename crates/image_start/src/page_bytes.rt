//! The file bytes of segments on a page.

ghost use Rattle.std.specs.Prelude.{◌≡◌, ◌<◌, ◌^◌, length, IfOk};
ghost use Rattle.image_model.specs.Pages.{page_start, page_limit};
ghost use Rattle.image_model.specs.StartOf.{file_bytes};
ghost use Rattle.image_start.specs.Written.{WritesSegment, HasFileBytes, AreZeros};

use image_model::{Bytes, PAGE_SIZE, Segment};
use std::alloc::{AllocError, Global};

/// Writes the file bytes that the segment has on the page that begins at the address.
fn write_segment(segment: &Segment, start: u64, page: &mut [u8])
    requires { length page.old ≡ 2 ^ 12 }
    ensures { WritesSegment segment.now start page.old page.new }
{
    let bytes = segment.bytes.as_slice();
    let before = start.saturating_sub(segment.at);
    let from = segment.at.saturating_sub(start);
    if before < bytes.len() as u64 && from < PAGE_SIZE {
        let before = before as usize;
        let from = from as usize;
        let count = (PAGE_SIZE as usize - from).min(bytes.len() - before);
        page[from..from + count].copy_from_slice(&bytes[before..before + count]);
    }
}

/// Writes the file bytes of all segments on the page that begins at the address. Where several
/// segments have one, the first of them counts, so the first is written last.
fn write_segments(segments: &[Segment], start: u64, page: &mut [u8])
    requires size { length page.old ≡ 2 ^ 12 }
    requires zero { AreZeros (2 ^ 12) page.old }
    ensures { HasFileBytes segments.now start page.new }
{
    match segments {
        [] => {}
        [first, rest @ ..] => {
            write_segments(rest, start, page);
            write_segment(first, start, page);
        }
    }
}

/// So many zeros.
fn zeros(alloc: Global, size: usize) -> Result<Vec<u8>, AllocError>
    ensures size { IfOk result (λ bytes. length bytes.items ≡ size) }
    ensures zero { IfOk result (λ bytes. AreZeros size bytes.items) }
{
    vec![in alloc; 0; size]
}

/// The 4,096 bytes of the page: the file bytes of all segments, and zeros.
pub fn page_bytes(alloc: Global, segments: &[Segment], page: u64) -> Result<Bytes, AllocError>
    requires { page < page_limit }
    ensures { IfOk result (λ bytes. bytes ≡ file_bytes segments.now (page_start page) (2 ^ 12)) }
{
    let mut bytes = zeros(alloc, PAGE_SIZE as usize)?;
    write_segments(segments, page * PAGE_SIZE, &mut bytes);
    Ok(Bytes::from_vec(bytes))
}
