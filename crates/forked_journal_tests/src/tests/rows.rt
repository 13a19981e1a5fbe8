//! What a row of a table of journals says.

use run_journal::{Event, FunctionStack, Judged, Sizes, Totals, judge, read_event};
use std::alloc::{AllocError, Global};
use std::test::Fail;

/// How many frames there are, how many a root takes, the rooms for idle contexts and for layers,
/// and the most requests.
pub type Rooms = (u32, u32, u32, u32, u32);

/// The layers of each function, the lowest first.
pub type Layers = &'static [&'static [u16]];

/// How many requests, cold, warm, hot and none there are, and how many free frames.
pub type Counts = (u32, u32, u32, u32, u32, u32);

/// Rooms, the layers of each function, and events; those that go on legally, with the totals then;
/// and those that go on otherwise, each with the place of the first that may not stand.
pub type Fork = (
    Rooms,
    Layers,
    &'static str,
    (&'static str, Counts),
    &'static [(&'static str, usize)],
);

/// Sizes of these rooms and layers, with clock 0 and 64 uses.
pub fn sizes(alloc: Global, rooms: Rooms, functions: Layers) -> Result<Sizes, AllocError> {
    let mut stacks = Vec::new(alloc);
    for function in functions {
        let layers = function.to_vec(alloc)?;
        stacks.push(FunctionStack { start: 0, layers })?;
    }
    Ok(Sizes {
        frames: rooms.0,
        root: rooms.1,
        idle: rooms.2,
        layers: rooms.3,
        uses: 64,
        requests: rooms.4,
        clock: Some(0),
        stacks,
    })
}

/// Adds the events of lines with a bar between.
pub fn add_events(events: &mut Vec<Event>, text: &str) -> Result<(), Fail> {
    for line in text.split('|') {
        events.push(read_event(line.as_bytes()).ok_or("a line of the table")?)?;
    }
    Ok(())
}

/// The verdict on the events in front and those that go on.
pub fn verdict(alloc: Global, sizes: &Sizes, front: &str, on: &str) -> Result<Judged, Fail> {
    let mut events = Vec::new(alloc);
    add_events(&mut events, front)?;
    add_events(&mut events, on)?;
    Ok(judge(alloc, sizes, &events)?)
}

/// That a journal of these totals is legal.
pub fn legal(counts: Counts) -> Judged {
    Judged::Legal(Totals {
        requests: counts.0,
        cold: counts.1,
        warm: counts.2,
        hot: counts.3,
        none: counts.4,
        free: counts.5,
    })
}
