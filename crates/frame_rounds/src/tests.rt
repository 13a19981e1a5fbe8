//! What rounds of each kind saw, worked out by hand.

use super::{MOST_FRAMES, StepKind, opened, played};
use std::test::Fail;

/// The name of a kind, and what 1,000 rounds of it saw. A load sees 99, and so does the holder
/// that a frame went to; a round of `put` sees its number, from 0; a leaf table's meta word is 1,
/// and that of a frame with one reference is 256; the entry is 0x1d7, which is 471.
const SEEN: [(&str, u64); 6] = [
    ("peek", 99_000),
    ("put", 499_500),
    ("dress", 1_000),
    ("gain", 256_000),
    ("entry", 471_000),
    ("cut", 99_000),
];

#[test]
fn rounds_answer_what_they_saw(rt: HostRuntime) -> Result<(), Fail> {
    for (name, seen) in SEEN {
        let kind = StepKind::named(name).ok_or("a kind of step")?;
        assert_eq!(rt; played(rt.alloc(), kind, 1_000)?, seen, "{name}");
        assert_eq!(rt; played(rt.alloc(), kind, 0)?, 0, "{name}");
    }
    assert!(rt; StepKind::named("").is_none());
    assert!(rt; StepKind::named("open").is_none());
    Ok(())
}

#[test]
fn the_largest_table_is_opened(rt: HostRuntime) -> Result<(), Fail> {
    assert_eq!(rt; opened(rt.alloc(), MOST_FRAMES)?, 131_072);
    Ok(())
}
