//! What the images start with.

ghost use Rattle.std.specs.Prelude.{◌≡◌, ◌%◌, IfSome, length};

use image_model::{Bytes, Image, PAGE_SIZE, Segment, Segments, Start};
use image_start::start_of;
use std::alloc::Global;

/// The flags of pages that may be read and written.
const RW: u32 = 6;

/// A start of one segment at the address: so many pages full of sevens, and two pages of zeros
/// behind them. They may be read and written.
fn start(alloc: Global, at: u64, pages: u16) -> Option<Start>
    requires { at % 4 ≡ 0 }
{
    let bytes = vec![in alloc; 7; usize::from(pages) * 4096].ok()?;
    let segment = Segment {
        at,
        flags: RW,
        size: (u64::from(pages) + 2) * PAGE_SIZE,
        bytes: Bytes::from_vec(bytes),
    };
    let image = Image {
        entry: at,
        segments: Segments::from_vec(vec![in alloc; segment].ok()?),
    };
    start_of(alloc, &image, 0).ok()
}

/// Starts with sevens on page 16, on pages 448 to 512, and on none.
pub fn starts(alloc: Global) -> Option<Vec<Start>>
    ensures { IfSome result (λ starts. length starts.items ≡ 3) }
{
    let one = start(alloc, 0x1_0000, 1)?;
    let many = start(alloc, 0x1c_0000, 65)?;
    let none = start(alloc, 0x1_0000, 0)?;
    vec![in alloc; one, many, none].ok()
}
