//! What a machine starts with.

ghost use Rattle.std.specs.Prelude.{◌≡◌, ◌%◌, IfOk};
ghost use Rattle.image_model.specs.StartOf as model;

use crate::pages::pages;
use crate::regions::regions;
use image_model::{Image, Start, start_is_sound};
use std::alloc::{AllocError, Global};

/// What a machine starts with, from the image and a stack of so many bytes that ends at 2^38.
/// What lies at or above 2^38 counts for nothing. The only error is want of memory.
pub fn start_of(alloc: Global, image: &Image, stack: u64) -> Result<Start, AllocError>
    requires aligned { image.now.entry % 4 ≡ 0 }
    ensures { IfOk result (λ start. start ≡ model.start_of image.now stack) }
{
    start_is_sound();
    let segments = image.segments.as_slice();
    let regions = regions(alloc, segments, stack)?;
    let pages = pages(alloc, segments, stack)?;
    Ok(Start::new(image.entry, regions, pages))
}
