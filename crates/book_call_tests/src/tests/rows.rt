//! Journals that calls of the book make, event by event.

use super::scenes::{Scene, played};
use book_steps::{Over, Shape, sizes_of};
use journal_model::{Event, Judged, Totals};
use run_journal::{judge, read_event};
use std::alloc::Global;
use std::test::Fail;

/// Numbers of a shape: frames that are free, rooms for idle contexts and for layers, uses,
/// requests.
type Rooms = (u32, u32, u32, u32, u32);

/// Rooms and stacks; the calls with what they tell; the events, with a bar between; and how many
/// requests, cold, warm, hot, none and free there are then.
type Row = (
    Rooms,
    &'static str,
    &'static str,
    &'static str,
    (u32, u32, u32, u32, u32, u32),
);

/// Over copied pages.
const COPIED: [Row; 14] = [
    // One function, one layer, and three requests.
    (
        (64, 1, 1, 64, 3),
        "00",
        "start 0 0 > Started(1)|serve 1 > FromImage { c: 1, mark: 0 }|keep 1 0 1 > Kept|\
         park 1 1 > Parked|start 0 0 > Started(2)|serve 2 > Hot(1)|park 2 1 > Parked|\
         start 0 0 > Started(3)|serve 3 > Hot(1)|park 3 1 > Parked",
        "start 1 0 0|deploy 1 image 1 0|built 1 0 1|keep 0|answer 1 1 0|park 1|start 2 0 0|\
         take 1 2|answer 2 1 1|park 1|start 3 0 0|take 1 3|answer 3 1 2|park 1",
        (3, 1, 0, 2, 0, 64),
    ),
    // One that ends after its answer.
    (
        (64, 1, 1, 64, 1),
        "00",
        "start 0 0 > Started(1)|serve 1 > FromImage { c: 1, mark: 0 }|keep 1 0 1 > Kept|\
         end 1 1 0 > Ended(0)",
        "start 1 0 0|deploy 1 image 1 0|built 1 0 1|keep 0|answer 1 1 0|end 1",
        (1, 1, 0, 0, 0, 64),
    ),
    // No room for idle contexts.
    (
        (64, 0, 1, 64, 3),
        "00",
        "start 0 0 > Started(1)|serve 1 > FromImage { c: 1, mark: 0 }|keep 1 0 1 > Kept|\
         park 1 1 > Not|end 1 1 0 > Ended(0)|start 0 0 > Started(2)|\
         serve 2 > FromLayer { c: 2, k: 0, mark: 100 }|end 2 2 0 > Ended(0)|\
         start 0 0 > Started(3)|serve 3 > FromLayer { c: 3, k: 0, mark: 100 }|\
         end 3 3 0 > Ended(0)",
        "start 1 0 0|deploy 1 image 1 0|built 1 0 1|keep 0|answer 1 1 0|end 1|start 2 0 0|\
         deploy 2 0 2 0|answer 2 2 0|end 2|start 3 0 0|deploy 3 0 3 0|answer 3 3 0|end 3",
        (3, 1, 2, 0, 0, 64),
    ),
    // A context is used twice at most.
    (
        (64, 1, 1, 2, 3),
        "00",
        "start 0 0 > Started(1)|serve 1 > FromImage { c: 1, mark: 0 }|keep 1 0 1 > Kept|\
         park 1 1 > Parked|start 0 0 > Started(2)|serve 2 > Hot(1)|park 2 1 > Not|\
         end 2 1 1 > Ended(0)|start 0 0 > Started(3)|\
         serve 3 > FromLayer { c: 2, k: 0, mark: 100 }|park 3 2 > Parked",
        "start 1 0 0|deploy 1 image 1 0|built 1 0 1|keep 0|answer 1 1 0|park 1|start 2 0 0|\
         take 1 2|answer 2 1 1|end 1|start 3 0 0|deploy 2 0 3 0|answer 3 2 0|park 2",
        (3, 1, 1, 1, 0, 64),
    ),
    // Three layers, one on another.
    (
        (64, 1, 3, 64, 1),
        "0012",
        "start 0 0 > Started(1)|serve 1 > FromImage { c: 1, mark: 0 }|keep 1 0 1 > Kept|\
         keep 1 1 1 > Kept|keep 1 2 1 > Kept|park 1 1 > Parked",
        "start 1 0 0|deploy 1 image 1 0|built 1 0 1|keep 0|built 1 1 1|keep 1|built 1 2 1|\
         keep 2|answer 1 1 0|park 1",
        (1, 1, 0, 0, 0, 64),
    ),
    // No layer could be made.
    (
        (64, 1, 1, 64, 2),
        "00",
        "start 0 0 > Started(1)|serve 1 > FromImage { c: 1, mark: 0 }|end 1 1 0 > Ended(0)|\
         start 0 0 > Started(2)|serve 2 > FromImage { c: 2, mark: 0 }|end 2 2 0 > Ended(0)",
        "start 1 0 0|deploy 1 image 1 0|answer 1 1 0|end 1|start 2 0 0|deploy 2 image 2 0|\
         answer 2 2 0|end 2",
        (2, 2, 0, 0, 0, 64),
    ),
    // Two functions, and room for one layer.
    (
        (64, 2, 1, 64, 3),
        "00/11",
        "start 0 0 > Started(1)|serve 1 > FromImage { c: 1, mark: 0 }|keep 1 0 1 > Kept|\
         park 1 1 > Parked|start 1 0 > Started(2)|serve 2 > FromImage { c: 2, mark: 1 }|\
         keep 2 1 1 > Dropped(0)|park 2 2 > Parked|start 0 0 > Started(3)|serve 3 > Hot(1)|\
         park 3 1 > Parked",
        "start 1 0 0|deploy 1 image 1 0|built 1 0 1|keep 0|answer 1 1 0|park 1|start 2 1 0|\
         deploy 2 image 2 0|built 2 1 1|drop 0|keep 1|answer 2 2 0|park 2|start 3 0 0|take 1 3|\
         answer 3 1 1|park 1",
        (3, 2, 0, 1, 0, 64),
    ),
    // Two at once make the same layer, and have no room to idle.
    (
        (64, 0, 1, 64, 2),
        "00",
        "start 0 0 > Started(1)|start 0 0 > Started(2)|serve 1 > FromImage { c: 1, mark: 0 }|\
         serve 2 > FromImage { c: 2, mark: 0 }|keep 1 0 1 > Kept|keep 2 0 1 > Twice|\
         end 2 2 0 > Ended(0)|end 1 1 0 > Ended(0)",
        "start 1 0 0|start 2 0 0|deploy 1 image 1 0|deploy 2 image 2 0|built 1 0 1|keep 0|\
         built 2 0 1|dup 0|answer 2 2 0|end 2|answer 1 1 0|end 1",
        (2, 2, 0, 0, 0, 64),
    ),
    // Two at once, and room for one to idle.
    (
        (64, 1, 1, 64, 2),
        "00",
        "start 0 0 > Started(1)|start 0 0 > Started(2)|serve 1 > FromImage { c: 1, mark: 0 }|\
         serve 2 > FromImage { c: 2, mark: 0 }|keep 1 0 1 > Kept|keep 2 0 1 > Twice|\
         park 2 2 > Parked|park 1 1 > Evicted(2)",
        "start 1 0 0|start 2 0 0|deploy 1 image 1 0|deploy 2 image 2 0|built 1 0 1|keep 0|\
         built 2 0 1|dup 0|answer 2 2 0|park 2|answer 1 1 0|evict 2|park 1",
        (2, 2, 0, 0, 0, 64),
    ),
    // From the highest kept layer, the function's own.
    (
        (64, 0, 2, 64, 2),
        "001",
        "start 0 0 > Started(1)|serve 1 > FromImage { c: 1, mark: 0 }|keep 1 0 1 > Kept|\
         keep 1 1 1 > Kept|end 1 1 0 > Ended(0)|start 0 0 > Started(2)|\
         serve 2 > FromLayer { c: 2, k: 1, mark: 101 }|end 2 2 0 > Ended(0)",
        "start 1 0 0|deploy 1 image 1 0|built 1 0 1|keep 0|built 1 1 1|keep 1|answer 1 1 0|end 1|\
         start 2 0 0|deploy 2 1 2 0|answer 2 2 0|end 2",
        (2, 1, 1, 0, 0, 64),
    ),
    // From a lower layer than the function's: cold.
    (
        (64, 0, 2, 64, 2),
        "00/001",
        "start 0 0 > Started(1)|serve 1 > FromImage { c: 1, mark: 0 }|keep 1 0 1 > Kept|\
         end 1 1 0 > Ended(0)|start 1 0 > Started(2)|\
         serve 2 > FromLayer { c: 2, k: 0, mark: 100 }|keep 2 1 0 > Kept|end 2 2 0 > Ended(0)",
        "start 1 0 0|deploy 1 image 1 0|built 1 0 1|keep 0|answer 1 1 0|end 1|start 2 1 0|\
         deploy 2 0 2 0|built 2 1 0|keep 1|answer 2 2 0|end 2",
        (2, 2, 0, 0, 0, 64),
    ),
    // A layer that was deployed from goes to the front, so that the other one goes.
    (
        (64, 0, 2, 64, 4),
        "00/01/02",
        "start 0 0 > Started(1)|serve 1 > FromImage { c: 1, mark: 0 }|keep 1 0 1 > Kept|\
         end 1 1 0 > Ended(0)|start 1 0 > Started(2)|serve 2 > FromImage { c: 2, mark: 0 }|\
         keep 2 1 1 > Kept|end 2 2 0 > Ended(0)|start 0 0 > Started(3)|\
         serve 3 > FromLayer { c: 3, k: 0, mark: 100 }|end 3 3 0 > Ended(0)|\
         start 2 0 > Started(4)|serve 4 > FromImage { c: 4, mark: 0 }|\
         keep 4 2 1 > Dropped(1)|end 4 4 0 > Ended(0)",
        "start 1 0 0|deploy 1 image 1 0|built 1 0 1|keep 0|answer 1 1 0|end 1|start 2 1 0|\
         deploy 2 image 2 0|built 2 1 1|keep 1|answer 2 2 0|end 2|start 3 0 0|deploy 3 0 3 0|\
         answer 3 3 0|end 3|start 4 2 0|deploy 4 image 4 0|built 4 2 1|drop 1|keep 2|\
         answer 4 4 0|end 4",
        (4, 3, 1, 0, 0, 64),
    ),
    // Requests that find no memory, with a context and without.
    (
        (64, 1, 1, 64, 2),
        "00",
        "start 0 0 > Started(1)|serve 1 > FromImage { c: 1, mark: 0 }|start 0 0 > Started(2)|\
         want 1 > Wanted|end 1 1 > Ended(0)|want 2 > Wanted",
        "start 1 0 0|deploy 1 image 1 0|start 2 0 0|want 1|end 1|want 2",
        (2, 1, 0, 0, 1, 64),
    ),
    // No call.
    (
        (64, 1, 1, 64, 1),
        "00",
        "serve 1 > Not",
        "",
        (0, 0, 0, 0, 0, 64),
    ),
];

/// Over counted frames. No call refills, so no layer can be made.
const COUNTED: [Row; 6] = [
    // A frame goes with each deploy, and comes back with each end.
    (
        (64, 1, 1, 64, 2),
        "00",
        "start 0 0 > Started(1)|serve 1 > FromImage { c: 1, mark: 0 }|end 1 1 0 > Ended(1)|\
         start 0 0 > Started(2)|serve 2 > FromImage { c: 2, mark: 0 }|end 2 2 0 > Ended(1)",
        "start 1 0 0|deploy 1 image 1 1|answer 1 1 0|end 1|back 1|start 2 0 0|\
         deploy 2 image 2 1|answer 2 2 0|end 2|back 1",
        (2, 2, 0, 0, 0, 64),
    ),
    // One that idles is taken from the middle.
    (
        (64, 3, 1, 64, 4),
        "0/1/0",
        "start 0 0 > Started(1)|serve 1 > FromImage { c: 1, mark: 0 }|park 1 1 > Parked|\
         start 1 0 > Started(2)|serve 2 > FromImage { c: 2, mark: 1 }|park 2 2 > Parked|\
         start 2 0 > Started(3)|serve 3 > FromImage { c: 3, mark: 0 }|park 3 3 > Parked|\
         start 1 0 > Started(4)|serve 4 > Hot(2)|park 4 2 > Parked",
        "start 1 0 0|deploy 1 image 1 1|answer 1 1 0|park 1|start 2 1 0|deploy 2 image 2 1|\
         answer 2 2 0|park 2|start 3 2 0|deploy 3 image 3 1|answer 3 3 0|park 3|start 4 1 0|\
         take 2 4|answer 4 2 1|park 2",
        (4, 3, 0, 1, 0, 61),
    ),
    // One frame, and two requests.
    (
        (1, 1, 1, 64, 2),
        "00",
        "start 0 0 > Started(1)|serve 1 > FromImage { c: 1, mark: 0 }|start 0 0 > Started(2)|\
         serve 2 > Frames|want 2 > Wanted|end 1 1 0 > Ended(1)",
        "start 1 0 0|deploy 1 image 1 1|start 2 0 0|want 2|answer 1 1 0|end 1|back 1",
        (2, 1, 0, 0, 1, 1),
    ),
    // One that idles goes for another.
    (
        (64, 1, 1, 64, 2),
        "00",
        "start 0 0 > Started(1)|start 0 0 > Started(2)|serve 1 > FromImage { c: 1, mark: 0 }|\
         serve 2 > FromImage { c: 2, mark: 0 }|park 2 2 > Parked|park 1 1 > Evicted(2)",
        "start 1 0 0|start 2 0 0|deploy 1 image 1 1|deploy 2 image 2 1|answer 2 2 0|park 2|\
         answer 1 1 0|evict 2|park 1|back 1",
        (2, 2, 0, 0, 0, 63),
    ),
    // One is used three times, and a capture wants a spare.
    (
        (64, 1, 1, 64, 3),
        "00",
        "start 0 0 > Started(1)|serve 1 > FromImage { c: 1, mark: 0 }|keep 1 0 1 > NeedFrames|\
         park 1 1 > Parked|start 0 0 > Started(2)|serve 2 > Hot(1)|park 2 1 > Parked|\
         start 0 0 > Started(3)|serve 3 > Hot(1)|end 3 1 2 > Ended(1)",
        "start 1 0 0|deploy 1 image 1 1|answer 1 1 0|park 1|start 2 0 0|take 1 2|answer 2 1 1|\
         park 1|start 3 0 0|take 1 3|answer 3 1 2|end 1|back 1",
        (3, 1, 0, 2, 0, 64),
    ),
    // A request that finds no memory, with a context.
    (
        (64, 1, 1, 64, 1),
        "00",
        "start 0 0 > Started(1)|serve 1 > FromImage { c: 1, mark: 0 }|want 1 > Wanted|\
         end 1 1 > Ended(1)",
        "start 1 0 0|deploy 1 image 1 1|want 1|end 1|back 1",
        (1, 1, 0, 0, 0, 64),
    ),
];

/// The events of lines with a bar between; none of an empty text.
fn events_of(alloc: Global, text: &str) -> Result<Vec<Event>, Fail> {
    let mut events = Vec::new(alloc);
    if text.is_empty() {
        return Ok(events);
    }
    for line in text.split('|') {
        let event = read_event(line.as_bytes()).ok_or("a line of the table")?;
        events.push(event)?;
    }
    Ok(events)
}

/// The scene of a row. Each of two images takes a counted frame.
fn scene_of(over: Over, row: &Row) -> Scene {
    let (frames, idle, layers, uses, requests) = row.0;
    let shape = Shape {
        shelf: over.shelf_for(frames),
        frames,
        idle,
        layers,
        uses,
        requests,
        stacks: row.1,
    };
    Scene {
        over,
        shape,
        text: row.2,
    }
}

/// The verdict of a legal journal.
fn legal_of(row: &Row) -> Judged {
    let (requests, cold, warm, hot, none, free) = row.4;
    Judged::Legal(Totals {
        requests,
        cold,
        warm,
        hot,
        none,
        free,
    })
}

/// Plays a row, and fails where its events or its verdict are others.
fn play_row(alloc: Global, over: Over, row: &Row) -> Result<(), Fail> {
    let scene = scene_of(over, row);
    let seen = played(alloc, &scene)?;
    let expected = events_of(alloc, row.3)?;
    if seen.events.as_slice() != expected.as_slice() {
        return Err(Fail::new(format_args!("{}: {:?}", row.3, seen.events)));
    }
    let sizes = sizes_of(alloc, &scene.shape, over.root())?;
    let judged = judge(alloc, &sizes, &seen.events)?;
    if judged != legal_of(row) {
        return Err(Fail::new(format_args!("{}: {judged:?}", row.3)));
    }
    Ok(())
}

#[test]
fn calls_make_the_journals_over_copied_pages(rt: HostRuntime) -> Result<(), Fail> {
    for row in &COPIED {
        play_row(rt.alloc(), Over::Copies, row)?;
    }
    Ok(())
}

#[test]
fn calls_make_the_journals_over_frames(rt: HostRuntime) -> Result<(), Fail> {
    for row in &COUNTED {
        play_row(rt.alloc(), Over::Frames, row)?;
    }
    Ok(())
}
