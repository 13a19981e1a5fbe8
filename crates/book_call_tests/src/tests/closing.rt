//! What a book gives back where it is closed.

use super::scenes::{Scene, played};
use book_steps::{Over, Seen, Shape};
use std::test::Fail;

/// Contexts and layers that came, went and were taken, and requests of two functions.
const COPIED: Scene = Scene {
    over: Over::Copies,
    shape: Shape {
        shelf: 64,
        frames: 64,
        idle: 2,
        layers: 2,
        uses: 64,
        requests: 9,
        stacks: "001/12",
    },
    text: "start 0 0 > Started(1)|start 0 0 > Started(2)|start 1 0 > Started(3)|\
           serve 1 > FromImage { c: 1, mark: 0 }|serve 2 > FromImage { c: 2, mark: 0 }|\
           serve 3 > FromImage { c: 3, mark: 1 }|keep 1 0 1 > Kept|keep 1 1 1 > Kept|\
           keep 3 2 1 > Dropped(0)|park 1 1 > Parked|park 2 2 > Parked|park 3 3 > Evicted(1)|\
           start 0 0 > Started(4)|serve 4 > Hot(2)|park 4 2 > Parked|start 1 0 > Started(5)|\
           serve 5 > Hot(3)|park 5 3 > Parked|start 0 0 > Started(6)",
};

/// What comes back, in rising order of the texts. A context has its number, its function, its
/// layer, and the packet and the clock of each request that it answered; a layer and an image their
/// number, the image below and their mark; a request its function, its packet and its clock.
const COPIED_LINES: [&str; 12] = [
    "context 2 0 None: [1] 0 [3] 0",
    "context 3 1 Some(2): [2] 0 [4] 0",
    "image 0 0",
    "image 1 1",
    "layer 1 0 101",
    "layer 2 1 102",
    "started 0 [0] 0",
    "started 0 [1] 0",
    "started 0 [3] 0",
    "started 0 [5] 0",
    "started 1 [2] 0",
    "started 1 [4] 0",
];

/// Fails where other lines come back.
fn look_at_lines(seen: &Seen, expected: &[&str]) -> Result<(), Fail> {
    if seen.lines.len() != expected.len() {
        return Err(Fail::new(format_args!("{:?}", seen.lines)));
    }
    for (line, other) in seen.lines.iter().zip(expected.iter()) {
        if line.as_str() != *other {
            return Err(Fail::new(format_args!("{line} for {other}")));
        }
    }
    Ok(())
}

#[test]
fn all_comes_back_over_copied_pages(rt: HostRuntime) -> Result<(), Fail> {
    let seen = played(rt.alloc(), &COPIED)?;
    look_at_lines(&seen, &COPIED_LINES)?;
    assert_eq!(rt; seen.idle.as_slice(), [2, 3].as_slice());
    assert_eq!(rt; seen.kept.as_slice(), [1, 2].as_slice());
    assert_eq!(rt; (seen.free, seen.events.len()), (64, 29));
    Ok(())
}

/// The same of a book that was stopped, with contexts in hand that are lost.
const STOPPED: Scene = Scene {
    over: Over::Frames,
    shape: Shape {
        shelf: 66,
        frames: 64,
        idle: 2,
        layers: 2,
        uses: 64,
        requests: 9,
        stacks: "001/12",
    },
    text: "start 0 0 > Started(1)|serve 1 > FromImage { c: 1, mark: 0 }|park 1 1 > Parked|\
           start 1 0 > Started(2)|serve 2 > FromImage { c: 2, mark: 1 }|abandon > Stopped|\
           end 2 2 0 > Memory|start 0 0 > Memory|abandon > Stopped",
};

const STOPPED_LINES: [&str; 5] = [
    "context 1 0 None: [0] 0",
    "image 0 0",
    "image 1 1",
    "started 0 [0] 0",
    "started 1 [1] 0",
];

#[test]
fn all_comes_back_of_a_stopped_book(rt: HostRuntime) -> Result<(), Fail> {
    let seen = played(rt.alloc(), &STOPPED)?;
    look_at_lines(&seen, &STOPPED_LINES)?;
    assert_eq!(rt; seen.idle.as_slice(), [1].as_slice());
    assert_eq!(rt; (seen.free, seen.events.len()), (62, 6));
    Ok(())
}
