//! Journals whose verdicts were worked out by hand.

use run_journal::{Event, FunctionStack, Judged, Sizes, Totals, judge, read_event};
use std::alloc::Global;
use std::test::Fail;

/// Events as lines, with a bar between them.
fn events(alloc: Global, text: &str) -> Result<Vec<Event>, Fail> {
    let mut events = Vec::new(alloc);
    for line in text.split('|') {
        let event = read_event(line.as_bytes()).ok_or("a line of the table")?;
        events.push(event)?;
    }
    Ok(events)
}

/// The stacks of functions, each with so many layers of its own.
fn stacks(alloc: Global, heights: &[u16]) -> Result<Vec<FunctionStack>, Fail> {
    let mut stacks = Vec::new(alloc);
    let mut next: u16 = 0;
    for (start, height) in heights.iter().enumerate() {
        let mut layers = Vec::new(alloc);
        for _ in 0..*height {
            layers.push(next)?;
            next = next.saturating_add(1);
        }
        let start = start.min(9) as u16;
        stacks.push(FunctionStack { start, layers })?;
    }
    Ok(stacks)
}

/// Sizes with clock 0: frames, root, idle, layers, uses, requests.
type Rooms = (u32, u32, u32, u32, u32, u32);

/// The verdict on a journal.
fn verdict(alloc: Global, rooms: Rooms, heights: &[u16], text: &str) -> Result<Judged, Fail> {
    let sizes = Sizes {
        frames: rooms.0,
        root: rooms.1,
        idle: rooms.2,
        layers: rooms.3,
        uses: rooms.4,
        requests: rooms.5,
        clock: Some(0),
        stacks: stacks(alloc, heights)?,
    };
    let events = events(alloc, text)?;
    Ok(judge(alloc, &sizes, &events)?)
}

/// A legal journal: requests, cold, warm, hot, none, free.
fn legal(totals: Rooms) -> Judged {
    Judged::Legal(Totals {
        requests: totals.0,
        cold: totals.1,
        warm: totals.2,
        hot: totals.3,
        none: totals.4,
        free: totals.5,
    })
}

#[test]
fn journals_are_legal(rt: HostRuntime) -> Result<(), Fail> {
    let alloc = rt.alloc();
    for (rooms, heights, text, totals) in [
        // No room for idle contexts; the second request starts from the kept layer.
        (
            (64, 1, 0, 1, 64, 3),
            [1, 0],
            "start 1 0 0|deploy 1 image 1 1|refill 1 0 16|built 1 0 1|keep 0|answer 1 1 0|end 1|\
             back 13|start 2 0 0|deploy 2 0 2 1|refill 2 0 16|answer 2 2 0|end 2|back 17|\
             start 3 0 0|deploy 3 0 3 1|refill 3 0 16|answer 3 3 0|end 3|back 17",
            (3, 1, 2, 0, 0, 60),
        ),
        // A context is used twice at most.
        (
            (64, 1, 1, 1, 2, 3),
            [1, 0],
            "start 1 0 0|deploy 1 image 1 1|refill 1 0 16|built 1 0 1|keep 0|answer 1 1 0|park 1|\
             back 9|start 2 0 0|take 1 2|answer 2 1 1|end 1|back 4|start 3 0 0|deploy 2 0 3 1|\
             refill 2 0 16|answer 3 2 0|park 2|back 13",
            (3, 1, 1, 1, 0, 56),
        ),
        // Three layers, one on another.
        (
            (64, 1, 1, 3, 64, 1),
            [3, 0],
            "start 1 0 0|deploy 1 image 1 1|refill 1 0 16|built 1 0 1|keep 0|built 1 1 1|keep 1|\
             built 1 2 1|keep 2|answer 1 1 0|park 1|back 1",
            (1, 1, 0, 0, 0, 48),
        ),
        // No layer could be made.
        (
            (64, 1, 1, 1, 64, 2),
            [1, 0],
            "start 1 0 0|deploy 1 image 1 1|answer 1 1 0|end 1|back 1|start 2 0 0|\
             deploy 2 image 2 1|answer 2 2 0|end 2|back 1",
            (2, 2, 0, 0, 0, 64),
        ),
        // Two functions, and room for one layer.
        (
            (64, 1, 2, 1, 64, 3),
            [1, 1],
            "start 1 0 0|deploy 1 image 1 1|refill 1 0 16|built 1 0 1|keep 0|answer 1 1 0|park 1|\
             back 9|start 2 1 0|deploy 2 image 2 1|refill 2 0 16|built 2 1 1|drop 0|keep 1|back 4|\
             answer 2 2 0|park 2|back 9|start 3 0 0|take 1 3|answer 3 1 1|park 1",
            (3, 2, 0, 1, 0, 52),
        ),
        // Few frames: a layer goes, and then the request is refused.
        (
            (6, 1, 1, 2, 64, 2),
            [1, 1],
            "start 1 0 0|deploy 1 image 1 1|refill 1 0 5|built 1 0 1|keep 0|drop 0|back 1|\
             refill 1 1 1|refuse 1|end 1|back 6|start 2 1 0|deploy 2 image 2 1|refill 2 0 5|\
             built 2 1 0|keep 1|answer 2 2 0|end 2|back 5",
            (2, 2, 0, 0, 0, 5),
        ),
        // One frame, and two requests that are both refused.
        (
            (1, 1, 1, 1, 64, 2),
            [1, 0],
            "start 1 0 0|deploy 1 image 1 1|start 2 0 0|refuse 2|refuse 1|end 1|back 1",
            (2, 1, 0, 0, 1, 1),
        ),
        // Copied pages take no frames. A second context makes the layer again, and the last idle
        // one goes for it.
        (
            (64, 0, 1, 1, 64, 2),
            [1, 0],
            "start 1 0 0|start 2 0 0|deploy 1 image 1 0|deploy 2 image 2 0|built 1 0 1|keep 0|\
             built 2 0 1|dup 0|answer 2 2 0|park 2|answer 1 1 0|evict 2|park 1",
            (2, 2, 0, 0, 0, 64),
        ),
        // An idle context goes for want of a frame.
        (
            (1, 1, 1, 1, 64, 2),
            [0, 0],
            "start 1 0 0|deploy 1 image 1 1|answer 1 1 0|park 1|start 2 1 0|evict 1|back 1|\
             deploy 2 image 2 1|want 2|end 2|back 1",
            (2, 2, 0, 0, 0, 1),
        ),
        // More frames come back than there were at first, up to the most.
        (
            (64, 1, 1, 1, 64, 1),
            [1, 0],
            "start 1 0 0|want 1|back 131008",
            (1, 0, 0, 0, 1, 131_072),
        ),
    ] {
        assert_eq!(rt;
            verdict(alloc, rooms, &heights, text)?,
            legal(totals),
            "{text}"
        );
    }
    Ok(())
}

#[test]
fn journals_are_broken(rt: HostRuntime) -> Result<(), Fail> {
    let alloc = rt.alloc();
    for (text, at) in [
        (
            "start 1 0 0|deploy 1 image 1 1|refill 1 0 15|built 1 0 1|keep 0|answer 1 1 0|park 1",
            2,
        ),
        (
            "start 1 0 0|deploy 1 image 1 1|refill 1 0 16|built 1 0 1|answer 1 1 0|park 1|back 9",
            4,
        ),
        ("start 1 0 0|refuse 1", 1),
        ("start 1 0 0|start 1 0 0", 1),
        ("start 1 0 7", 0),
        ("start 1 1 0", 0),
        ("start 1 0 0|start 2 0 0|start 3 0 0|start 4 0 0", 3),
        ("deploy 1 image 1 1|start 1 0 0", 0),
        ("start 1 0 0|take 1 1", 1),
        ("start 1 0 0|deploy 1 0 1 1", 1),
        ("start 1 0 0|deploy 1 image 1 2", 1),
        ("start 1 0 0|deploy 2 image 1 1", 1),
        ("start 1 0 0|deploy 4294967295 image 1 1", 1),
        ("start 1 0 0|deploy 1 image 1 1|end 1", 2),
        ("start 1 0 0|deploy 1 image 1 1|answer 1 1 1|end 1", 2),
        ("start 1 0 0|deploy 1 image 1 1|answer 1 1 0", 3),
        ("start 1 0 0|deploy 1 image 1 1|answer 1 1 0|back 1", 3),
        (
            "start 1 0 0|deploy 1 image 1 1|answer 1 1 0|park 1|park 1",
            4,
        ),
        (
            "start 1 0 0|deploy 1 image 1 1|answer 1 1 0|park 1|evict 1",
            4,
        ),
        (
            "start 1 0 0|deploy 1 image 1 1|answer 1 1 0|park 1|start 2 0 0|deploy 2 image 2 1",
            5,
        ),
        (
            "start 1 0 0|deploy 1 image 1 1|built 1 0 1|keep 0|drop 0",
            4,
        ),
        (
            "start 1 0 0|deploy 1 image 1 1|built 1 0 1|keep 0|keep 0",
            4,
        ),
        ("start 1 0 0|deploy 1 image 1 1|built 1 0 1|dup 0", 3),
        ("start 1 0 0|want 1|want 1", 2),
        ("back 131009", 0),
        ("back 4294967295", 0),
    ] {
        let found = verdict(alloc, (64, 1, 1, 1, 64, 3), &[1], text)?;
        assert_eq!(rt; found, Judged::Broken { at }, "{text}");
    }
    Ok(())
}

#[test]
fn a_request_is_hot(rt: HostRuntime) -> Result<(), Fail> {
    let alloc = rt.alloc();
    let text = "start 1 0 0|deploy 1 image 1 1|refill 1 0 16|built 1 0 1|keep 0|answer 1 1 0|\
                park 1|back 9|start 2 0 0|take 1 2|answer 2 1 1|park 1|start 3 0 0|take 1 3|\
                answer 3 1 2|park 1";
    let rooms = (64, 1, 1, 1, 64, 3);
    assert_eq!(rt;
        verdict(alloc, rooms, &[1], text)?,
        legal((3, 1, 0, 2, 0, 56))
    );
    let sizes = Sizes {
        frames: 64,
        root: 1,
        idle: 1,
        layers: 1,
        uses: 64,
        requests: 3,
        clock: None,
        stacks: stacks(alloc, &[1])?,
    };
    assert_eq!(rt; judge(alloc, &sizes, &[])?, legal((0, 0, 0, 0, 0, 64)));
    let zero = [Event::Evict { c: 0 }];
    assert_eq!(rt; judge(alloc, &sizes, &zero)?, Judged::Broken { at: 0 });
    Ok(())
}
