//! How many bytes segments have, before they are made.

ghost use Rattle.std.specs.Prelude.{◌≡◌, map};
ghost use Rattle.asm_program.specs.Held.{part_of};
ghost use Rattle.asm_image.specs.Sizes as model;

use asm_program::{Part, byte_count};
use image_model::FILE_LIMIT;

/// An image has at most so many segments.
const MOST_SEGMENTS: usize = 16;

/// How many bytes a file header takes, and each program header.
const FILE_HEADER_SIZE: u64 = 64;

const PROGRAM_HEADER_SIZE: u64 = 56;

/// Whether there are at most 16 segments, and their ELF file has at most 16,777,216 bytes.
pub fn fits_file(parts: &[Part]) -> bool
    ensures { result ≡ model.fits_file (map part_of parts.now) }
{
    if parts.len() > MOST_SEGMENTS {
        return false;
    }
    let headers = FILE_HEADER_SIZE + PROGRAM_HEADER_SIZE * parts.len() as u64;
    left_behind_all(parts, FILE_LIMIT - headers).is_some()
}

/// What is left of the room behind the bytes of the segments, or none where they don't fit.
fn left_behind_all(parts: &[Part], room: u64) -> Option<u64>
    ensures { result ≡ model.left room (model.parts_size (map part_of parts.now)) }
{
    let mut left = room;
    for part in parts {
        match left_behind(part, left) {
            Some(rest) => left = rest,
            None => return None,
        }
    }
    Some(left)
}

/// What is left of the room behind the bytes of the segment, or none where they don't fit.
fn left_behind(part: &Part, room: u64) -> Option<u64>
    ensures { result ≡ model.left room (model.part_size (part_of part.now)) }
{
    let mut left = room;
    for piece in &part.pieces {
        match left.checked_sub(byte_count(&piece.says)) {
            Some(rest) => left = rest,
            None => return None,
        }
    }
    Some(left)
}
