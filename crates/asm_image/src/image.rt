//! The image of a text.

ghost use Rattle.std.specs.Prelude.{◌≡◌, ◌≤◌, ◌^◌, nat_lt, Some, None, IfOk, map};
ghost use Rattle.std.specs.Prelude.{if◌then◌else◌};
ghost use Rattle.image_model.specs.Valid.{is_valid};
ghost use Rattle.asm_image.specs.ImageOf as model;
ghost use Rattle.asm_image.specs.Sizes.{parts_size};
ghost use Rattle.asm_image.specs.Uses.{is_far, first_line, far_line, pieces_of};
ghost use Rattle.asm_program.specs.Held.{part_of, labels_of, reading_of};

use crate::bytes::segment_of;
use crate::sizes::fits_file;
use asm_program::{Labels, Part, Reading};
use image_model::{Image, Segment, Segments};
use std::alloc::{AllocError, Global};

/// The image of a text whose labels are near, or none where that isn't valid.
///
/// The only error is that memory ran out. No bytes are made of segments that are too long for a
/// file.
pub fn valid_image(alloc: Global, reading: &Reading) -> Result<Option<Image>, AllocError>
    requires { far_line (reading_of reading.now) ≡ None }
    ensures { IfOk result (λ image. image ≡ model.image_if_valid (reading_of reading.now)) }
{
    if !fits_file(&reading.parts) {
        return Ok(None);
    }
    match entry_of(reading) {
        None => Ok(None),
        Some(entry) => {
            let list = segments_of(alloc, &reading.labels, &reading.parts)?;
            let segments = Segments::from_vec(list);
            Ok(if_valid(Image { entry, segments }))
        }
    }
}

/// The image, if it is valid.
fn if_valid(image: Image) -> Option<Image>
    ensures { result ≡ (if is_valid image then Some image else None) }
{
    if image.is_valid() { Some(image) } else { None }
}

/// The address of the first instruction, or none where it isn't below 2^64.
fn entry_of(reading: &Reading) -> Option<u64>
    ensures { result ≡ model.low_address (model.image_of (reading_of reading.now)).entry }
{
    match &reading.entry {
        None => Some(first_address(&reading.parts)),
        Some(entry) => match reading.labels.address_of(entry.name) {
            None => Some(0),
            Some(address) => low_address(address),
        },
    }
}

/// The address, if it is below 2^64.
fn low_address(address: u128) -> Option<u64>
    ensures { result ≡ model.low_address address }
{
    if address < 1 << 64 {
        Some(address as u64)
    } else {
        None
    }
}

/// The address of the first segment, or 0 without one.
fn first_address(parts: &[Part]) -> u64
    ensures { result ≡ model.first_address (map part_of parts.now) }
{
    match parts {
        [] => 0,
        [first, ..] => first.at,
    }
}

/// The segments of the image.
fn segments_of(alloc: Global, labels: &Labels, parts: &[Part]) -> Result<Vec<Segment>, AllocError>
    requires near { first_line (is_far (labels_of labels.now)) (pieces_of (map part_of parts.now))
        ≡ None }
    requires room { parts_size (map part_of parts.now) ≤ 2 ^ 24 }
    ensures { IfOk result (λ segments. segments.items
        ≡ map (model.segment_for (labels_of labels.now)) (map part_of parts.now)) }
{
    let mut segments = Vec::new(alloc);
    for part in parts {
        segments.push(segment_of(alloc, labels, part)?)?;
    }
    Ok(segments)
}
