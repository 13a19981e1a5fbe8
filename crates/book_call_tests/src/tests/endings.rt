//! Each way in which a call refuses, hands back or finds none, and a book that was stopped. What
//! was refused appends no event (`scenes`).

use super::scenes::{Scene, played};
use book_steps::{Over, Shape};
use std::test::Fail;

/// Rooms for one idle context and two layers, each context used twice at most, three requests, of
/// a function with the layers 0 and 1 and of one with the layer 2 on the other image.
const NARROW: Shape = Shape {
    shelf: 64,
    frames: 64,
    idle: 1,
    layers: 2,
    uses: 2,
    requests: 3,
    stacks: "001/12",
};

/// More room.
const WIDE: Shape = Shape {
    shelf: 64,
    frames: 64,
    idle: 2,
    layers: 2,
    uses: 64,
    requests: 9,
    stacks: "001/12",
};

/// Two frames beside those of the images.
const FRAMES: Shape = Shape {
    shelf: 4,
    frames: 2,
    idle: 2,
    layers: 2,
    uses: 64,
    requests: 9,
    stacks: "001/12",
};

const SCENES: [Scene; 6] = [
    // What was never started, is served, answered or wanted, or is beyond what there may be.
    Scene {
        over: Over::Copies,
        shape: NARROW,
        text: "start 2 0 > Not|start 0 7 > Not|serve 0 > Not|serve 1 > Not|want 1 > Not|\
               start 0 0 > Started(1)|serve 1 > FromImage { c: 1, mark: 0 }|serve 1 > Not|\
               serve 2 > Not|keep 1 1 1 > Not|keep 1 2 1 > Not|keep 1 0 1 > Kept|\
               keep 1 0 1 > Not|keep 2 0 1 > Missing|park 1 1 > Parked|serve 1 > Not|\
               want 1 > Not|start 0 0 > Started(2)|serve 2 > Hot(1)|park 2 1 > Not|\
               end 2 1 1 > Ended(0)|start 1 0 > Started(3)|\
               serve 3 > FromImage { c: 2, mark: 1 }|start 0 0 > Not|want 3 > Wanted|\
               want 3 > Not|keep 2 2 1 > Not|park 3 2 > Not|end 3 2 > Ended(0)",
    },
    // An end that may not be: after another use, for another request, without an answer to an open
    // request, and with an answer to one that was wanted.
    Scene {
        over: Over::Copies,
        shape: WIDE,
        text: "start 0 0 > Started(1)|serve 1 > FromImage { c: 1, mark: 0 }|end 1 1 1 > Not|\
               end 1 1 0 > Missing|start 0 0 > Started(2)|\
               serve 2 > FromImage { c: 2, mark: 0 }|end 1 2 0 > Not|start 0 0 > Started(3)|\
               serve 3 > FromImage { c: 3, mark: 0 }|end 3 3 > Not|start 0 0 > Started(4)|\
               serve 4 > FromImage { c: 4, mark: 0 }|want 4 > Wanted|end 4 4 0 > Not",
    },
    // A park for another request; what is taken is the most recent of its function; what goes is
    // the first.
    Scene {
        over: Over::Copies,
        shape: WIDE,
        text: "start 0 0 > Started(1)|start 0 0 > Started(2)|start 1 0 > Started(3)|\
               serve 1 > FromImage { c: 1, mark: 0 }|serve 2 > FromImage { c: 2, mark: 0 }|\
               serve 3 > FromImage { c: 3, mark: 1 }|park 2 1 > Not|park 1 1 > Parked|\
               park 2 2 > Parked|park 3 3 > Evicted(1)|start 0 0 > Started(4)|serve 4 > Hot(2)|\
               start 0 0 > Started(5)|serve 5 > FromImage { c: 4, mark: 0 }|park 4 2 > Parked|\
               park 5 4 > Evicted(3)|start 0 0 > Started(6)|serve 6 > Hot(4)",
    },
    // Layers that are kept already, and one that goes for another.
    Scene {
        over: Over::Copies,
        shape: WIDE,
        text: "start 0 0 > Started(1)|start 0 0 > Started(2)|start 1 0 > Started(3)|\
               serve 1 > FromImage { c: 1, mark: 0 }|serve 2 > FromImage { c: 2, mark: 0 }|\
               serve 3 > FromImage { c: 3, mark: 1 }|keep 1 0 1 > Kept|keep 1 1 1 > Kept|\
               keep 2 0 1 > Twice|keep 3 2 1 > Dropped(0)|keep 2 1 1 > Twice|\
               start 0 0 > Started(4)|serve 4 > FromLayer { c: 4, k: 1, mark: 101 }|\
               keep 4 0 1 > Not",
    },
    // Frames that run out, and a capture that wants a spare.
    Scene {
        over: Over::Frames,
        shape: FRAMES,
        text: "start 0 0 > Started(1)|start 0 0 > Started(2)|start 0 0 > Started(3)|\
               serve 1 > FromImage { c: 1, mark: 0 }|serve 2 > FromImage { c: 2, mark: 0 }|\
               serve 3 > Frames|keep 1 0 1 > NeedFrames|keep 1 1 1 > Not|end 1 1 0 > Ended(1)|\
               serve 3 > FromImage { c: 3, mark: 0 }|park 2 2 > Parked|park 3 3 > Parked|\
               start 1 0 > Started(4)|serve 4 > Frames|start 0 0 > Started(5)|\
               serve 5 > Hot(3)",
    },
    // A book that was stopped, again and again.
    Scene {
        over: Over::Frames,
        shape: Shape {
            shelf: 64,
            frames: 62,
            idle: 2,
            layers: 2,
            uses: 64,
            requests: 9,
            stacks: "001/12",
        },
        text: "start 0 0 > Started(1)|start 0 0 > Started(2)|start 0 0 > Started(3)|\
               serve 1 > FromImage { c: 1, mark: 0 }|serve 2 > FromImage { c: 2, mark: 0 }|\
               serve 3 > FromImage { c: 3, mark: 0 }|park 1 1 > Parked|start 0 0 > Started(4)|\
               start 1 0 > Started(5)|abandon > Stopped|start 0 0 > Memory|serve 4 > Memory|\
               serve 5 > Memory|park 2 2 > Memory|end 3 3 0 > Memory|want 4 > Memory|\
               abandon > Stopped|start 0 0 > Memory|serve 4 > Memory|serve 9 > Not",
    },
];

#[test]
fn calls_end_as_they_may(rt: HostRuntime) -> Result<(), Fail> {
    for scene in &SCENES {
        played(rt.alloc(), scene)?;
    }
    Ok(())
}

/// A stopped book wants memory also for a layer that it has room for, for one that it has, and for
/// one that would go for another.
const STOPPED: Scene = Scene {
    over: Over::Copies,
    shape: WIDE,
    text: "start 0 0 > Started(1)|start 0 0 > Started(2)|start 0 0 > Started(3)|\
           serve 1 > FromImage { c: 1, mark: 0 }|serve 2 > FromImage { c: 2, mark: 0 }|\
           serve 3 > FromImage { c: 3, mark: 0 }|keep 1 0 1 > Kept|abandon > Stopped|\
           keep 1 1 1 > Memory|keep 2 0 1 > Memory|want 3 > Memory|end 3 3 0 > Memory",
};

/// What a stopped book has is what it had.
#[test]
fn a_stopped_book_keeps_no_layer(rt: HostRuntime) -> Result<(), Fail> {
    let seen = played(rt.alloc(), &STOPPED)?;
    assert_eq!(rt; seen.kept.as_slice(), [0].as_slice());
    assert_eq!(rt; seen.events.len(), 8);
    Ok(())
}
