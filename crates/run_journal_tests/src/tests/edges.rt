//! Journals at the edges of what is legal, worked out by hand.

use super::variants::{Rooms, events, sizes, variants_agree};
use run_journal::{Judged, Totals, judge};
use std::test::Fail;

/// Three contexts of three functions that were parked.
const THREE_IDLE: &str = "start 1 0 0|deploy 1 image 1 1|answer 1 1 0|park 1|start 2 1 0|\
                          deploy 2 image 2 1|answer 2 2 0|park 2|start 3 2 0|deploy 3 image 3 1|\
                          answer 3 3 0|park 3|start 4 1 0|take 2 4|answer 4 2 1|park 2";

/// Rooms, stacks, events, and how many requests, cold, warm, hot, none and free there are.
type Legal = (Rooms, &'static str, &'static str, Rooms);

const LEGAL: [Legal; 12] = [
    // A drop where nothing idles; a refusal where nothing is kept.
    (
        (1, 1, 1, 1, 64, 2),
        "0/1",
        "start 1 0 0|deploy 1 image 1 1|built 1 0 1|keep 0|answer 1 1 0|park 1|evict 1|drop 0",
        (1, 1, 0, 0, 0, 0),
    ),
    (
        (1, 1, 1, 1, 64, 2),
        "0",
        "start 1 0 0|deploy 1 image 1 1|built 1 0 1|keep 0|drop 0|refuse 1|end 1",
        (1, 1, 0, 0, 0, 0),
    ),
    // The first idle context is taken.
    (
        (64, 1, 2, 1, 64, 3),
        "0",
        "start 1 0 0|start 2 0 0|deploy 1 image 1 1|deploy 2 image 2 1|answer 1 1 0|park 1|\
         answer 2 2 0|park 2|start 3 0 0|take 2 3",
        (3, 2, 0, 1, 0, 62),
    ),
    // One spare more, beside fifteen.
    (
        (64, 1, 1, 1, 64, 1),
        "0",
        "start 1 0 0|deploy 1 image 1 1|refill 1 15 1|answer 1 1 0|end 1",
        (1, 1, 0, 0, 0, 62),
    ),
    // Parked once below the uses.
    (
        (64, 1, 1, 1, 2, 1),
        "0",
        "start 1 0 0|deploy 1 image 1 1|answer 1 1 0|park 1",
        (1, 1, 0, 0, 0, 63),
    ),
    // From the highest kept layer, the function's own.
    (
        (64, 1, 0, 2, 64, 2),
        "01",
        "start 1 0 0|deploy 1 image 1 1|built 1 0 1|keep 0|built 1 1 1|keep 1|answer 1 1 0|end 1|\
         start 2 0 0|deploy 2 1 2 1|answer 2 2 0|end 2",
        (2, 1, 1, 0, 0, 62),
    ),
    // From a lower layer than the function's: cold.
    (
        (64, 1, 0, 2, 64, 2),
        "01",
        "start 1 0 0|deploy 1 image 1 1|built 1 0 1|keep 0|answer 1 1 0|end 1|start 2 0 0|\
         deploy 2 0 2 1",
        (2, 2, 0, 0, 0, 62),
    ),
    // A deploy brings its layer to the front: the other one is dropped.
    (
        (3, 1, 0, 2, 64, 3),
        "0/1",
        "start 1 0 0|deploy 1 image 1 1|built 1 0 1|keep 0|answer 1 1 0|end 1|start 2 1 0|\
         deploy 2 image 2 1|built 2 1 1|keep 1|answer 2 2 0|end 2|start 3 0 0|\
         deploy 3 0 3 1|drop 1",
        (3, 2, 1, 0, 0, 0),
    ),
    (
        (64, 1, 0, 2, 64, 2),
        "01/02",
        "start 1 0 0|deploy 1 image 1 1|built 1 0 1|keep 0|built 1 1 1|keep 1|answer 1 1 0|end 1|\
         start 2 1 0|deploy 2 0 2 1|built 2 2 1|drop 1|keep 2|answer 2 2 0|end 2",
        (2, 2, 0, 0, 0, 62),
    ),
    // Three idle contexts, of which the middle one is taken; and a fourth pushes the first out.
    (
        (64, 1, 3, 1, 64, 4),
        "0/1/2",
        THREE_IDLE,
        (4, 3, 0, 1, 0, 61),
    ),
    (
        (64, 0, 3, 1, 64, 4),
        "0/1/2/3",
        "start 1 0 0|deploy 1 image 1 0|answer 1 1 0|park 1|start 2 1 0|deploy 2 image 2 0|\
         answer 2 2 0|park 2|start 3 2 0|deploy 3 image 3 0|answer 3 3 0|park 3|start 4 3 0|\
         deploy 4 image 4 0|answer 4 4 0|evict 1|park 4",
        (4, 4, 0, 0, 0, 64),
    ),
    // Over copied pages a plan of no frames refuses.
    (
        (0, 0, 1, 1, 64, 2),
        "0",
        "start 1 0 0|refuse 1",
        (1, 0, 0, 0, 1, 0),
    ),
];

/// Rooms, stacks, events, and the first that may not stand.
type Broken = (Rooms, &'static str, &'static str, usize);

const BROKEN: [Broken; 16] = [
    // Over copied pages: a deploy takes no frame, none are refilled or come back, none is short.
    (
        (64, 0, 1, 1, 64, 2),
        "0",
        "start 1 0 0|deploy 1 image 1 1",
        1,
    ),
    (
        (64, 0, 1, 1, 64, 2),
        "0",
        "start 1 0 0|deploy 1 image 1 0|refill 1 0 16",
        2,
    ),
    ((64, 0, 1, 1, 64, 2), "0", "start 1 0 0|want 1|back 1", 2),
    ((64, 0, 1, 1, 64, 2), "0", "start 1 0 0|refuse 1", 1),
    (
        (0, 0, 1, 1, 64, 2),
        "0",
        "start 1 0 0|deploy 1 image 1 0|built 1 0 1|keep 0|drop 0",
        4,
    ),
    (
        (0, 0, 1, 1, 64, 2),
        "0",
        "start 1 0 0|deploy 1 image 1 0|answer 1 1 0|park 1|evict 1",
        4,
    ),
    // A drop while a context idles.
    (
        (1, 1, 1, 1, 64, 2),
        "0/1",
        "start 1 0 0|deploy 1 image 1 1|built 1 0 1|keep 0|answer 1 1 0|park 1|drop 0",
        6,
    ),
    // The second idle context is taken.
    (
        (64, 1, 2, 1, 64, 3),
        "0",
        "start 1 0 0|start 2 0 0|deploy 1 image 1 1|deploy 2 image 2 1|answer 1 1 0|park 1|\
         answer 2 2 0|park 2|start 3 0 0|take 1 3",
        9,
    ),
    // Sixteen spares are held already.
    (
        (64, 1, 1, 1, 64, 1),
        "0",
        "start 1 0 0|deploy 1 image 1 1|refill 1 16 1",
        2,
    ),
    // Parked at the uses.
    (
        (64, 1, 1, 1, 1, 1),
        "0",
        "start 1 0 0|deploy 1 image 1 1|answer 1 1 0|park 1",
        3,
    ),
    // Refused while a layer is kept, and while a context idles.
    (
        (1, 1, 1, 1, 64, 2),
        "0",
        "start 1 0 0|deploy 1 image 1 1|built 1 0 1|keep 0|refuse 1",
        4,
    ),
    (
        (1, 1, 1, 1, 64, 2),
        "0/1",
        "start 1 0 0|deploy 1 image 1 1|answer 1 1 0|park 1|start 2 1 0|refuse 2",
        5,
    ),
    // From the lowest kept layer, where a higher one is kept.
    (
        (64, 1, 0, 2, 64, 2),
        "01",
        "start 1 0 0|deploy 1 image 1 1|built 1 0 1|keep 0|built 1 1 1|keep 1|answer 1 1 0|end 1|\
         start 2 0 0|deploy 2 0 2 1",
        9,
    ),
    // The layer of the last deploy is in front.
    (
        (3, 1, 0, 2, 64, 3),
        "0/1",
        "start 1 0 0|deploy 1 image 1 1|built 1 0 1|keep 0|answer 1 1 0|end 1|start 2 1 0|\
         deploy 2 image 2 1|built 2 1 1|keep 1|answer 2 2 0|end 2|start 3 0 0|\
         deploy 3 0 3 1|drop 0",
        14,
    ),
    // A layer is left out.
    (
        (64, 1, 0, 2, 64, 2),
        "01",
        "start 1 0 0|deploy 1 image 1 1|built 1 1 1",
        2,
    ),
    // The most recent idle context is pushed out.
    (
        (64, 0, 2, 1, 64, 4),
        "0/1/2",
        "start 1 0 0|deploy 1 image 1 0|answer 1 1 0|park 1|start 2 1 0|deploy 2 image 2 0|\
         answer 2 2 0|park 2|start 3 2 0|deploy 3 image 3 0|answer 3 3 0|evict 2|park 3",
        11,
    ),
];

fn totals(of: Rooms) -> Totals {
    Totals {
        requests: of.0,
        cold: of.1,
        warm: of.2,
        hot: of.3,
        none: of.4,
        free: of.5,
    }
}

#[test]
fn edges_are_legal(rt: HostRuntime) -> Result<(), Fail> {
    let alloc = rt.alloc();
    for (rooms, layers, text, of) in LEGAL {
        let sizes = sizes(alloc, rooms, layers)?;
        let events = events(alloc, text)?;
        assert_eq!(rt;
            judge(alloc, &sizes, &events)?,
            Judged::Legal(totals(of)),
            "{text}"
        );
        assert!(rt; variants_agree(alloc, &sizes, &events)?, "{text}");
    }
    Ok(())
}

#[test]
fn edges_are_broken(rt: HostRuntime) -> Result<(), Fail> {
    let alloc = rt.alloc();
    for (rooms, layers, text, at) in BROKEN {
        let sizes = sizes(alloc, rooms, layers)?;
        let events = events(alloc, text)?;
        assert_eq!(rt;
            judge(alloc, &sizes, &events)?,
            Judged::Broken { at },
            "{text}"
        );
    }
    Ok(())
}
