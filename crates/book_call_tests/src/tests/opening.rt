//! With which sizes, and over which shelf, a book is opened.

use book_steps::{Over, Shape, seen_over};
use std::test::Fail;

/// Frames on the shelf and to be free, rooms for idle contexts and layers, requests, stacks, and
/// whether the book is opened.
type Opening = (Over, u32, u32, (u32, u32, u32), &'static str, bool);

const OPENINGS: [Opening; 20] = [
    (Over::Copies, 64, 64, (1, 1, 3), "00", true),
    // The limits.
    (Over::Copies, 0, 0, (0, 1, 0), "00", true),
    (Over::Copies, 131_072, 131_072, (256, 64, 4096), "00", true),
    (Over::Copies, 64, 64, (1, 1, 4097), "00", false),
    (Over::Copies, 64, 64, (1, 0, 3), "00", false),
    // Other frames than the shelf has.
    (Over::Copies, 64, 63, (1, 1, 3), "00", false),
    (Over::Copies, 64, 65, (1, 1, 3), "00", false),
    (Over::Copies, 131_072, 131_073, (1, 1, 3), "00", false),
    // An image that there isn't.
    (Over::Copies, 64, 64, (1, 1, 3), "10", true),
    (Over::Copies, 64, 64, (1, 1, 3), "20", false),
    (Over::Copies, 64, 64, (1, 1, 3), "00/20", false),
    // A layer that stands twice in a stack; in two stacks it may.
    (Over::Copies, 64, 64, (1, 1, 3), "000", false),
    (Over::Copies, 64, 64, (1, 1, 3), "0121", false),
    (Over::Copies, 64, 64, (1, 1, 3), "001/001", true),
    // Each of the two images takes a frame.
    (Over::Frames, 0, 0, (1, 1, 3), "00", false),
    (Over::Frames, 1, 0, (1, 1, 3), "00", false),
    (Over::Frames, 2, 0, (1, 1, 3), "00", true),
    (Over::Frames, 3, 1, (1, 1, 3), "00", true),
    (Over::Frames, 3, 2, (1, 1, 3), "00", false),
    (Over::Frames, 3, 3, (1, 1, 3), "00", false),
];

/// The shape of an opening.
fn shape_of(opening: &Opening) -> Shape {
    let (idle, layers, requests) = opening.3;
    Shape {
        shelf: opening.1,
        frames: opening.2,
        idle,
        layers,
        uses: 64,
        requests,
        stacks: opening.4,
    }
}

#[test]
fn a_book_is_opened_where_it_may(rt: HostRuntime) -> Result<(), Fail> {
    for (place, opening) in OPENINGS.iter().enumerate() {
        let shape = shape_of(opening);
        let seen = seen_over(rt.alloc(), opening.0, &shape, &[])?;
        assert_eq!(rt; seen.is_some(), opening.5, "opening {place}");
    }
    Ok(())
}
