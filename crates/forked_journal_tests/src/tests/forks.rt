//! Journals that go on from one front in several ways, worked out by hand: of each fork one way is
//! legal, and the others break.

use super::alone::ALONE;
use super::rows::{Fork, legal, sizes, verdict};
use run_journal::{Judged, Sizes};
use std::process::Abort;
use std::test::Fail;

/// Three functions of one layer each, whose contexts idle, with one frame each.
const THREE_AND_THREE: &str = "start 1 0 0|deploy 1 image 1 1|built 1 0 1|keep 0|answer 1 1 0|\
                               park 1|start 2 1 0|deploy 2 image 2 1|built 2 1 1|keep 1|\
                               answer 2 2 0|park 2|start 3 2 0|deploy 3 image 3 1|built 3 2 1|\
                               keep 2|answer 3 3 0|park 3";

/// The same over copied pages.
const THREE_COPIED: &str = "start 1 0 0|deploy 1 image 1 0|built 1 0 1|keep 0|answer 1 1 0|\
                            park 1|start 2 1 0|deploy 2 image 2 0|built 2 1 1|keep 1|\
                            answer 2 2 0|park 2|start 3 2 0|deploy 3 image 3 0|built 3 2 1|\
                            keep 2|answer 3 3 0|park 3";

/// Three functions of one layer each, whose layers are kept.
const THREE_KEPT: &str = "start 1 0 0|deploy 1 image 1 1|built 1 0 1|keep 0|answer 1 1 0|end 1|\
                          start 2 1 0|deploy 2 image 2 1|built 2 1 1|keep 1|answer 2 2 0|end 2|\
                          start 3 2 0|deploy 3 image 3 1|built 3 2 1|keep 2|answer 3 3 0|end 3";

const FORKS: [Fork; 18] = [
    // No frame is free: the idle contexts go first, then the layers, each list from its end; and
    // only then is a request refused.
    (
        (3, 1, 3, 3, 4),
        &[&[0], &[1], &[2]],
        THREE_AND_THREE,
        (
            "start 4 0 0|evict 1|evict 2|evict 3|drop 0|drop 1|drop 2|refuse 4",
            (4, 3, 0, 0, 1, 0),
        ),
        &[
            ("drop 0", 18),
            ("evict 2", 18),
            ("evict 3", 18),
            ("evict 1|drop 0", 19),
            ("evict 1|evict 2|drop 0", 20),
            ("evict 1|evict 2|evict 3|drop 1", 21),
            ("evict 1|evict 2|evict 3|drop 2", 21),
            ("start 4 0 0|refuse 4", 19),
            ("start 4 0 0|evict 1|evict 2|refuse 4", 21),
            ("start 4 0 0|evict 1|evict 2|evict 3|refuse 4", 22),
            (
                "start 4 0 0|evict 1|evict 2|evict 3|drop 0|drop 1|refuse 4",
                24,
            ),
        ],
    ),
    // One frame is free: none of them goes.
    (
        (4, 1, 3, 3, 4),
        &[&[0], &[1], &[2]],
        THREE_AND_THREE,
        (
            "start 4 1 0|take 2 4|answer 4 2 1|park 2",
            (4, 3, 0, 1, 0, 1),
        ),
        &[
            ("drop 0", 18),
            ("evict 1", 18),
            ("start 4 1 0|refuse 4", 19),
            ("start 4 1 0|take 1 4", 19),
            ("start 4 1 0|take 3 4", 19),
            ("start 4 1 0|deploy 4 1 4 1", 19),
        ],
    ),
    // Over copied pages none of them goes either.
    (
        (0, 0, 3, 3, 4),
        &[&[0], &[1], &[2]],
        THREE_COPIED,
        (
            "start 4 0 0|take 1 4|answer 4 1 1|park 1",
            (4, 3, 0, 1, 0, 0),
        ),
        &[
            ("drop 0", 18),
            ("evict 1", 18),
            ("start 4 0 0|refuse 4", 19),
            ("start 4 0 0|take 2 4", 19),
            ("start 4 0 0|take 3 4", 19),
            ("start 4 0 0|deploy 4 0 4 0", 19),
            ("start 4 0 0|take 1 4|refuse 4", 20),
        ],
    ),
    // A request isn't refused while contexts idle, though no layer is kept.
    (
        (3, 1, 3, 1, 4),
        &[&[0], &[1], &[2]],
        "start 1 0 0|deploy 1 image 1 1|answer 1 1 0|park 1|start 2 1 0|deploy 2 image 2 1|\
         answer 2 2 0|park 2|start 3 2 0|deploy 3 image 3 1|answer 3 3 0|park 3|start 4 0 0",
        ("evict 1|evict 2|evict 3|refuse 4", (4, 3, 0, 0, 1, 0)),
        &[
            ("refuse 4", 13),
            ("evict 1|refuse 4", 14),
            ("evict 1|evict 2|refuse 4", 15),
        ],
    ),
    (
        (0, 0, 3, 1, 4),
        &[&[0], &[1], &[2]],
        "start 1 0 0|deploy 1 image 1 0|answer 1 1 0|park 1|start 2 1 0|deploy 2 image 2 0|\
         answer 2 2 0|park 2|start 3 2 0|deploy 3 image 3 0|answer 3 3 0|park 3|start 4 0 0",
        ("take 1 4|answer 4 1 1|park 1", (4, 3, 0, 1, 0, 0)),
        &[("refuse 4", 13), ("take 1 4|refuse 4", 14)],
    ),
    // Three layers of one function go, the lowest first.
    (
        (1, 1, 1, 3, 2),
        &[&[0, 1, 2]],
        "start 1 0 0|deploy 1 image 1 1|built 1 0 1|keep 0|built 1 1 1|keep 1|built 1 2 1|keep 2",
        ("drop 0|drop 1|drop 2|refuse 1|end 1", (1, 1, 0, 0, 0, 0)),
        &[
            ("drop 1", 8),
            ("drop 2", 8),
            ("refuse 1", 8),
            ("drop 0|drop 2", 9),
            ("drop 0|refuse 1", 9),
            ("drop 0|drop 1|refuse 1", 10),
        ],
    ),
    (
        (0, 0, 1, 3, 2),
        &[&[0, 1, 2]],
        "start 1 0 0|deploy 1 image 1 0|built 1 0 1|keep 0|built 1 1 1|keep 1|built 1 2 1|keep 2",
        (
            "answer 1 1 0|park 1|start 2 0 0|take 1 2|want 2|end 1",
            (2, 1, 0, 1, 0, 0),
        ),
        &[("drop 0", 8), ("refuse 1", 8)],
    ),
    // From the highest of three kept layers, the function's own.
    (
        (64, 1, 0, 3, 2),
        &[&[0, 1, 2]],
        "start 1 0 0|deploy 1 image 1 1|built 1 0 1|keep 0|built 1 1 1|keep 1|built 1 2 1|keep 2|\
         answer 1 1 0|end 1|start 2 0 0",
        ("deploy 2 2 2 1|answer 2 2 0|end 2", (2, 1, 1, 0, 0, 62)),
        &[
            ("deploy 2 1 2 1", 11),
            ("deploy 2 0 2 1", 11),
            ("deploy 2 image 2 1", 11),
        ],
    ),
    // From the middle one, above which none is kept: cold.
    (
        (64, 1, 0, 3, 2),
        &[&[0, 1, 2]],
        "start 1 0 0|deploy 1 image 1 1|built 1 0 1|keep 0|built 1 1 1|keep 1|answer 1 1 0|end 1|\
         start 2 0 0",
        (
            "deploy 2 1 2 1|built 2 2 1|keep 2|answer 2 2 0|end 2",
            (2, 2, 0, 0, 0, 62),
        ),
        &[
            ("deploy 2 0 2 1", 9),
            ("deploy 2 2 2 1", 9),
            ("deploy 2 image 2 1", 9),
            ("deploy 2 1 2 1|built 2 0 1", 10),
            ("deploy 2 1 2 1|built 2 1 1", 10),
        ],
    ),
    // From the function's own layer, below which none is kept.
    (
        (64, 1, 0, 1, 2),
        &[&[0, 1]],
        "start 1 0 0|deploy 1 image 1 1|built 1 0 1|keep 0|built 1 1 1|drop 0|keep 1|\
         answer 1 1 0|end 1|start 2 0 0",
        ("deploy 2 1 2 1|answer 2 2 0|end 2", (2, 1, 1, 0, 0, 62)),
        &[("deploy 2 0 2 1", 10), ("deploy 2 image 2 1", 10)],
    ),
    (
        (64, 0, 0, 2, 2),
        &[&[0, 1]],
        "start 1 0 0|deploy 1 image 1 0|built 1 0 1|keep 0|built 1 1 1|keep 1|answer 1 1 0|end 1|\
         start 2 0 0",
        ("deploy 2 1 2 0|answer 2 2 0|end 2", (2, 1, 1, 0, 0, 64)),
        &[
            ("deploy 2 0 2 0", 9),
            ("deploy 2 image 2 0", 9),
            ("deploy 2 1 2 1", 9),
        ],
    ),
    // One layer is the own of one function, and stands below that of another: warm, and cold.
    (
        (64, 1, 0, 2, 3),
        &[&[0, 1], &[0]],
        "start 1 1 0|deploy 1 image 1 1|built 1 0 1|keep 0|answer 1 1 0|end 1|start 2 1 0|\
         deploy 2 0 2 1|answer 2 2 0|end 2|start 3 0 0",
        ("deploy 3 0 3 1|answer 3 3 0|end 3", (3, 2, 1, 0, 0, 61)),
        &[("deploy 3 1 3 1", 11), ("deploy 3 image 3 1", 11)],
    ),
    // The layer of a deploy is in front, with the one that was built on it before it: the last of
    // three goes for a fourth.
    (
        (64, 1, 0, 3, 4),
        &[&[0, 1], &[0, 2], &[3]],
        "start 1 0 0|deploy 1 image 1 1|built 1 0 1|keep 0|built 1 1 1|keep 1|answer 1 1 0|end 1|\
         start 2 1 0|deploy 2 0 2 1|built 2 2 1|keep 2|answer 2 2 0|end 2|start 3 2 0|\
         deploy 3 image 3 1|built 3 3 1",
        (
            "drop 1|keep 3|answer 3 3 0|end 3|start 4 0 0|deploy 4 0 4 1",
            (4, 4, 0, 0, 0, 60),
        ),
        &[
            ("drop 0", 17),
            ("drop 2", 17),
            ("keep 3", 17),
            ("drop 1|keep 1", 18),
            (
                "drop 1|keep 3|answer 3 3 0|end 3|start 4 0 0|deploy 4 1 4 1",
                22,
            ),
        ],
    ),
    // The middle one of three comes to the front, and the last one.
    (
        (4, 1, 0, 3, 4),
        &[&[0], &[1], &[2]],
        THREE_KEPT,
        (
            "start 4 1 0|deploy 4 1 4 1|drop 0|drop 2|drop 1|refuse 4|end 4",
            (4, 3, 1, 0, 0, 0),
        ),
        &[
            ("start 4 1 0|deploy 4 0 4 1", 19),
            ("start 4 1 0|deploy 4 image 4 1", 19),
            ("start 4 1 0|deploy 4 1 4 1|drop 1", 20),
            ("start 4 1 0|deploy 4 1 4 1|drop 2", 20),
            ("start 4 1 0|deploy 4 1 4 1|drop 0|drop 1", 21),
            ("start 4 1 0|deploy 4 1 4 1|drop 0|drop 2|refuse 4", 22),
        ],
    ),
    (
        (4, 1, 0, 3, 4),
        &[&[0], &[1], &[2]],
        THREE_KEPT,
        (
            "start 4 0 0|deploy 4 0 4 1|drop 1|drop 2|drop 0|refuse 4|end 4",
            (4, 3, 1, 0, 0, 0),
        ),
        &[
            ("start 4 0 0|deploy 4 0 4 1|drop 0", 20),
            ("start 4 0 0|deploy 4 0 4 1|drop 2", 20),
            ("start 4 0 0|deploy 4 0 4 1|drop 1|drop 0", 21),
        ],
    ),
    // Two idle contexts of one function, with another's between: the more recent one is taken.
    (
        (64, 0, 3, 1, 4),
        &[&[0], &[1]],
        "start 1 0 0|start 2 1 0|start 3 0 0|deploy 1 image 1 0|deploy 2 image 2 0|\
         deploy 3 image 3 0|answer 1 1 0|park 1|answer 2 2 0|park 2|answer 3 3 0|park 3|\
         start 4 0 0",
        ("take 3 4|answer 4 3 1|park 3", (4, 3, 0, 1, 0, 64)),
        &[
            ("take 1 4", 13),
            ("take 2 4", 13),
            ("deploy 4 image 4 0", 13),
            ("take 3 4|answer 4 3 0", 14),
        ],
    ),
    // A context that was taken is the most recent one again: the last of three goes for a fourth.
    (
        (64, 1, 3, 1, 5),
        &[&[0], &[1], &[2], &[3]],
        "start 1 0 0|deploy 1 image 1 1|answer 1 1 0|park 1|start 2 1 0|deploy 2 image 2 1|\
         answer 2 2 0|park 2|start 3 2 0|deploy 3 image 3 1|answer 3 3 0|park 3|start 4 0 0|\
         take 1 4|answer 4 1 1|park 1|start 5 3 0|deploy 4 image 5 1|answer 5 4 0",
        ("evict 2|park 4", (5, 4, 0, 1, 0, 60)),
        &[
            ("evict 1", 19),
            ("evict 3", 19),
            ("park 4", 19),
            ("evict 2|end 4", 20),
            ("evict 2|park 1", 20),
        ],
    ),
    // It may be over instead.
    (
        (64, 0, 1, 1, 2),
        &[&[0], &[1]],
        "start 1 0 0|deploy 1 image 1 0|answer 1 1 0|park 1|start 2 1 0|deploy 2 image 2 0|\
         answer 2 2 0",
        ("end 2", (2, 2, 0, 0, 0, 64)),
        &[("end 1", 7), ("evict 2", 7), ("evict 1|end 2", 8)],
    ),
];

/// Each of these forks goes on to its totals.
fn all_go_on<R: Abort + AllocGlobal>(rt: &R, forks: &[Fork]) -> Result<(), Fail> {
    for fork in forks {
        let (rooms, layers, front, (on, counts), _) = *fork;
        let sizes = sizes(rt.alloc(), rooms, layers)?;
        let found = verdict(rt.alloc(), &sizes, front, on)?;
        assert_eq!(rt; found, legal(counts), "{front} and {on}");
    }
    Ok(())
}

#[test]
fn forks_go_on(rt: HostRuntime) -> Result<(), Fail> {
    all_go_on(&rt, &FORKS)?;
    all_go_on(&rt, &ALONE)
}

/// Each of these ways to go on breaks where it says.
fn break_there<R: Abort + AllocGlobal>(
    rt: &R,
    sizes: &Sizes,
    front: &str,
    wrong: &[(&str, usize)],
) -> Result<(), Fail> {
    for way in wrong {
        let (on, at) = *way;
        let found = verdict(rt.alloc(), sizes, front, on)?;
        assert_eq!(rt; found, Judged::Broken { at }, "{front} and {on}");
    }
    Ok(())
}

/// Each other way of these forks breaks.
fn all_break<R: Abort + AllocGlobal>(rt: &R, forks: &[Fork]) -> Result<(), Fail> {
    for fork in forks {
        let (rooms, layers, front, _, wrong) = *fork;
        let sizes = sizes(rt.alloc(), rooms, layers)?;
        break_there(rt, &sizes, front, wrong)?;
    }
    Ok(())
}

#[test]
fn forks_break(rt: HostRuntime) -> Result<(), Fail> {
    all_break(&rt, &FORKS)?;
    all_break(&rt, &ALONE)
}
