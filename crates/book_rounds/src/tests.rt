//! All rounds are played, however they are spread.

use crate::{EVENTS, played};
use std::test::Fail;

/// How many events a book has before its rounds: a start, a deploy, an answer and a park of each
/// context.
const FILLED: u64 = 1_024;

#[test]
fn all_rounds_are_played(rt: HostRuntime) -> Result<(), Fail> {
    let alloc = rt.alloc();
    assert_eq!(rt; played(alloc, 0, 2)?, Some(2 * FILLED));
    assert_eq!(rt; played(alloc, 1, 1)?, Some(FILLED + EVENTS));
    assert_eq!(rt; played(alloc, 256, 1)?, Some(FILLED + EVENTS));
    assert_eq!(rt; played(alloc, 257, 1)?, None);
    Ok(())
}
