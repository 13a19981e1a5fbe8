//! An image with as much memory as there is, a file as long as one may be, and one byte more.

use super::{CALL, HEADERS, NONE, Outcome, TINY, TINY_LINES, add_words, check, image_file};
use std::alloc::{AllocError, Global};
use std::test::Fail;

/// A file of the three words of `TINY`, with 0x3f00000000 bytes of memory and so many more.
fn vast_file(alloc: Global, more: u32) -> Result<Vec<u8>, AllocError> {
    let mut file = HEADERS.to_vec(alloc)?;
    add_words(&mut file, &[12, 0, more, 0x3f, 1, 0])?;
    add_words(&mut file, TINY)?;
    Ok(file)
}

/// How much more memory there is, what becomes of the listing, and of the run. Memory that begins
/// at 0x10000 ends at 0x3fc0000000, or a byte above.
const SIZES: [(u32, Outcome<'static>, Outcome<'static>); 2] = [
    (
        0xbfff_0000,
        (0, TINY_LINES, ""),
        (0, "halt:0 3 none -\n", ""),
    ),
    (
        0xbfff_0001,
        (2, "", "seuss: image Address\n"),
        (2, "", "seuss: image Address\n"),
    ),
];

#[test]
fn takes_an_image_of_all_memory(rt: HostRuntime) -> Result<(), Fail> {
    for (more, listed, ran) in SIZES {
        let file = vast_file(rt.alloc(), more)?;
        check(&rt, &["dis"], &[], &file, NONE, listed)?;
        check(&rt, CALL, &file, &[], NONE, ran)?;
    }
    Ok(())
}

/// How many bytes stand behind the 132 of the file, and what becomes of the run.
const LENGTHS: [(usize, Outcome<'static>); 2] = [
    (16_777_084, (0, "halt:0 3 none -\n", "")),
    (16_777_085, (2, "", "seuss: image TooBig\n")),
];

#[test]
fn takes_the_longest_file(rt: HostRuntime) -> Result<(), Fail> {
    for (behind, ran) in LENGTHS {
        let mut file = image_file(rt.alloc(), TINY, 0x1000)?;
        file.extend_from_slice(&vec![in rt.alloc(); 0; behind]?)?;
        check(&rt, CALL, &file, &[], NONE, ran)?;
    }
    Ok(())
}
