//! Forks of which each way breaks for one cause alone, worked out by hand.

use super::rows::Fork;

/// One context of one layer that serves the first of three requests.
const SERVING: &str = "start 1 0 0|deploy 1 image 1 1";

/// Two contexts that serve a request each, over copied pages.
const TWO_SERVING: &str = "start 1 0 0|start 2 0 0|deploy 1 image 1 0|deploy 2 image 2 0";

/// Two contexts of one function that idle, over copied pages, and a request.
const TWO_IDLE: &str = "start 1 0 0|start 2 0 0|deploy 1 image 1 0|deploy 2 image 2 0|\
                        answer 1 1 0|park 1|answer 2 2 0|park 2|start 3 0 0";

/// Two contexts of which both built the first of two layers.
const BUILT_TWICE: &str = "start 1 0 0|start 2 0 0|deploy 1 image 1 0|deploy 2 image 2 0|\
                           built 1 0 1|keep 0|built 2 0 1";

/// Each way that breaks has one cause.
pub const ALONE: [Fork; 9] = [
    // A request has the next number, and gets the next context and as many frames as a root takes.
    (
        (64, 1, 1, 1, 3),
        &[&[0]],
        "start 1 0 0",
        ("deploy 1 image 1 1|answer 1 1 0|end 1", (1, 1, 0, 0, 0, 63)),
        &[
            ("start 0 0 0", 1),
            ("start 1 0 0", 1),
            ("start 3 0 0", 1),
            ("deploy 1 image 1 0", 1),
            ("deploy 1 image 1 2", 1),
            ("deploy 2 image 1 1", 1),
            ("deploy 1 image 0 1", 1),
            ("deploy 1 image 2 1", 1),
            ("want 0", 1),
            ("want 2", 1),
            ("want 1|deploy 1 image 1 1", 2),
            ("want 1|want 1", 2),
        ],
    ),
    // What is asked of a context that serves: its number, its request, what it answered, and its
    // next layer.
    (
        (64, 1, 1, 1, 3),
        &[&[0]],
        SERVING,
        (
            "refill 1 15 1|built 1 0 1|keep 0|want 1|end 1",
            (1, 1, 0, 0, 0, 62),
        ),
        &[
            ("deploy 2 image 1 1", 2),
            ("answer 1 1 1", 2),
            ("answer 1 2 0", 2),
            ("answer 2 1 0", 2),
            ("built 1 1 1", 2),
            ("built 2 0 1", 2),
            ("refill 2 0 16", 2),
            ("park 1", 2),
            ("end 1", 2),
            ("built 1 0 1|keep 0|built 1 0 1", 4),
        ],
    ),
    // One whose request was wanted ends, and does nothing else.
    (
        (64, 1, 1, 1, 3),
        &[&[0]],
        SERVING,
        (
            "want 1|end 1|start 2 0 0|deploy 2 image 2 1",
            (2, 2, 0, 0, 0, 62),
        ),
        &[
            ("want 1|answer 1 1 0", 3),
            ("want 1|built 1 0 1", 3),
            ("want 1|refill 1 0 16", 3),
            ("want 1|park 1", 3),
            ("want 1|deploy 2 image 1 1", 3),
            ("want 1|end 1|end 1", 4),
            ("want 1|end 1|refill 1 0 16", 4),
            ("want 1|start 2 0 0|answer 2 1 0", 4),
            ("want 1|start 2 0 0|take 1 2", 4),
        ],
    ),
    // One that is over or idle isn't asked anything, and a request that was answered gets nothing
    // more.
    (
        (64, 1, 1, 1, 3),
        &[&[0]],
        SERVING,
        (
            "answer 1 1 0|park 1|start 2 0 0|take 1 2",
            (2, 1, 0, 1, 0, 63),
        ),
        &[
            ("answer 1 1 0|end 1|answer 1 1 1", 4),
            ("answer 1 1 0|end 1|built 1 0 1", 4),
            ("answer 1 1 0|end 1|refill 1 0 16", 4),
            ("answer 1 1 0|end 1|park 1", 4),
            ("answer 1 1 0|end 1|end 1", 4),
            ("answer 1 1 0|end 1|want 1", 4),
            ("answer 1 1 0|end 1|deploy 2 image 1 1", 4),
            ("answer 1 1 0|end 1|start 2 0 0|take 1 2", 5),
            ("answer 1 1 0|park 1|answer 1 1 1", 4),
            ("answer 1 1 0|park 1|built 1 0 1", 4),
            ("answer 1 1 0|park 1|refill 1 0 16", 4),
            ("answer 1 1 0|park 1|end 1", 4),
            ("answer 1 1 0|park 1|take 1 1", 4),
        ],
    ),
    // Over copied pages a request that was refused, or answered, isn't refused.
    (
        (0, 0, 1, 1, 2),
        &[&[0]],
        "start 1 0 0",
        (
            "refuse 1|start 2 0 0|deploy 1 image 2 0|answer 2 1 0|end 1",
            (2, 1, 0, 0, 1, 0),
        ),
        &[
            ("deploy 1 image 1 1", 1),
            ("refuse 0", 1),
            ("refuse 2", 1),
            ("refuse 1|refuse 1", 2),
            ("refuse 1|want 1", 2),
            ("refuse 1|deploy 1 image 1 0", 2),
            ("deploy 1 image 1 0|refuse 1|answer 1 1 0", 3),
            ("deploy 1 image 1 0|refuse 1|built 1 0 1", 3),
            ("deploy 1 image 1 0|answer 1 1 0|end 1|refuse 1", 4),
        ],
    ),
    // Of five free frames a context gets as many as it has room for, or all; and none is there for
    // another.
    (
        (6, 1, 1, 1, 2),
        &[&[0], &[1]],
        SERVING,
        (
            "refill 1 12 4|refill 1 0 1|start 2 1 0|refuse 2|answer 1 1 0|end 1",
            (2, 1, 0, 0, 1, 0),
        ),
        &[
            ("refill 1 0 4", 2),
            ("refill 1 0 6", 2),
            ("refill 1 0 16", 2),
            ("refill 1 12 5", 2),
            ("refill 1 12 3", 2),
            ("refill 1 15 2", 2),
            ("refill 1 16 1", 2),
            ("refill 1 17 1", 2),
            ("refill 1 4294967295 1", 2),
            ("refill 1 0 5|refill 1 5 11", 3),
            ("refill 1 0 5|start 2 1 0|deploy 2 image 2 1", 4),
            ("refill 1 0 5|start 2 1 0|deploy 2 image 2 0", 4),
        ],
    ),
    // Of two contexts each answers its own request.
    (
        (64, 0, 2, 1, 2),
        &[&[0]],
        TWO_SERVING,
        ("answer 2 2 0|end 2|answer 1 1 0|end 1", (2, 2, 0, 0, 0, 64)),
        &[
            ("answer 1 2 0", 4),
            ("answer 2 1 0", 4),
            ("answer 2 2 0|end 1", 5),
            ("answer 2 2 0|park 1", 5),
            ("answer 2 2 0|answer 1 1 0", 5),
            ("want 2|end 1", 5),
        ],
    ),
    // Of two idle ones one is taken, once, for the request that waits.
    (
        (64, 0, 2, 1, 3),
        &[&[0]],
        TWO_IDLE,
        ("take 2 3|answer 3 2 1|park 2", (3, 2, 0, 1, 0, 64)),
        &[
            ("take 1 3", 9),
            ("take 2 1", 9),
            ("take 2 2", 9),
            ("take 2 4", 9),
            ("answer 3 2 1", 9),
            ("start 4 0 0", 9),
            ("want 3|take 2 3", 10),
            ("take 2 3|take 2 3", 10),
            ("take 2 3|take 1 3", 10),
            ("take 2 3|deploy 3 image 3 0", 10),
            ("take 2 3|answer 3 1 1", 10),
            ("take 2 3|answer 1 2 1", 10),
            ("take 2 3|park 1", 10),
            ("take 2 3|evict 2", 10),
        ],
    ),
    // The second of one layer is given up, and no other; the layer that is kept stays.
    (
        (64, 0, 1, 1, 2),
        &[&[0, 1]],
        BUILT_TWICE,
        (
            "dup 0|built 2 1 1|drop 0|keep 1|answer 1 1 0|end 1|answer 2 2 0|end 2",
            (2, 2, 0, 0, 0, 64),
        ),
        &[
            ("dup 1", 7),
            ("keep 0", 7),
            ("keep 1", 7),
            ("drop 0", 7),
            ("answer 1 1 0", 7),
            ("dup 0|dup 0", 8),
            ("dup 0|keep 0", 8),
            ("dup 0|built 1 0 1", 8),
            ("dup 0|built 2 0 1", 8),
            ("dup 0|built 2 1 1|keep 1", 9),
            ("dup 0|built 2 1 1|dup 1", 9),
            ("dup 0|built 2 1 1|drop 1", 9),
            ("dup 0|built 2 1 1|drop 0|keep 0", 10),
        ],
    ),
];
