//! Journals that were worked out by hand, and each of them with one event left out, doubled, or
//! changed for the next: two judges that know nothing of each other agree.

use super::slow::slowly_judged;
use run_journal::{Event, FunctionStack, Journal, Judged, Sizes, judge, read_event};
use std::alloc::Global;
use std::test::Fail;

/// Sizes with clock 0: frames, root, idle, layers, uses, requests.
pub type Rooms = (u32, u32, u32, u32, u32, u32);

/// Rooms, the stacks of functions with a digit a layer and a slash between, and events with a bar
/// between.
type Row = (Rooms, &'static str, &'static str);

/// Journals of whole batches.
const WHOLE: [Row; 9] = [
    (
        (64, 1, 1, 1, 64, 1),
        "0",
        "start 1 0 0|deploy 1 image 1 1|refill 1 0 16|built 1 0 1|keep 0|answer 1 1 0|end 1|\
         back 13",
    ),
    (
        (64, 1, 1, 1, 64, 3),
        "0",
        "start 1 0 0|deploy 1 image 1 1|refill 1 0 16|built 1 0 1|keep 0|answer 1 1 0|park 1|\
         back 9|start 2 0 0|take 1 2|answer 2 1 1|park 1|start 3 0 0|take 1 3|answer 3 1 2|park 1",
    ),
    (
        (64, 1, 0, 1, 64, 3),
        "0",
        "start 1 0 0|deploy 1 image 1 1|refill 1 0 16|built 1 0 1|keep 0|answer 1 1 0|end 1|\
         back 13|start 2 0 0|deploy 2 0 2 1|refill 2 0 16|answer 2 2 0|end 2|back 17|\
         start 3 0 0|deploy 3 0 3 1|refill 3 0 16|answer 3 3 0|end 3|back 17",
    ),
    (
        (64, 1, 1, 1, 2, 3),
        "0",
        "start 1 0 0|deploy 1 image 1 1|refill 1 0 16|built 1 0 1|keep 0|answer 1 1 0|park 1|\
         back 9|start 2 0 0|take 1 2|answer 2 1 1|end 1|back 4|start 3 0 0|deploy 2 0 3 1|\
         refill 2 0 16|answer 3 2 0|park 2|back 13",
    ),
    (
        (64, 1, 1, 3, 64, 1),
        "012",
        "start 1 0 0|deploy 1 image 1 1|refill 1 0 16|built 1 0 1|keep 0|built 1 1 1|keep 1|\
         built 1 2 1|keep 2|answer 1 1 0|park 1|back 1",
    ),
    (
        (64, 1, 1, 1, 64, 2),
        "0",
        "start 1 0 0|deploy 1 image 1 1|answer 1 1 0|end 1|back 1|start 2 0 0|\
         deploy 2 image 2 1|answer 2 2 0|end 2|back 1",
    ),
    (
        (64, 1, 2, 1, 64, 3),
        "0/1",
        "start 1 0 0|deploy 1 image 1 1|refill 1 0 16|built 1 0 1|keep 0|answer 1 1 0|park 1|\
         back 9|start 2 1 0|deploy 2 image 2 1|refill 2 0 16|built 2 1 1|drop 0|keep 1|back 4|\
         answer 2 2 0|park 2|back 9|start 3 0 0|take 1 3|answer 3 1 1|park 1",
    ),
    (
        (6, 1, 1, 2, 64, 2),
        "0/1",
        "start 1 0 0|deploy 1 image 1 1|refill 1 0 5|built 1 0 1|keep 0|drop 0|back 1|\
         refill 1 1 1|refuse 1|end 1|back 6|start 2 1 0|deploy 2 image 2 1|refill 2 0 5|\
         built 2 1 0|keep 1|answer 2 2 0|end 2|back 5",
    ),
    (
        (1, 1, 1, 1, 64, 2),
        "0",
        "start 1 0 0|deploy 1 image 1 1|start 2 0 0|refuse 2|refuse 1|end 1|back 1",
    ),
];

/// The events of lines with a bar between.
pub fn events(alloc: Global, text: &str) -> Result<Vec<Event>, Fail> {
    let mut events = Vec::new(alloc);
    for line in text.split('|') {
        let event = read_event(line.as_bytes()).ok_or("a line of the table")?;
        events.push(event)?;
    }
    Ok(events)
}

fn stacks(alloc: Global, text: &str) -> Result<Vec<FunctionStack>, Fail> {
    let mut stacks = Vec::new(alloc);
    for digits in text.split('/') {
        let mut layers = Vec::new(alloc);
        for digit in digits.bytes() {
            layers.push(u16::from(digit.saturating_sub(b'0')))?;
        }
        stacks.push(FunctionStack { start: 0, layers })?;
    }
    Ok(stacks)
}

/// Sizes of these rooms and stacks.
pub fn sizes(alloc: Global, rooms: Rooms, text: &str) -> Result<Sizes, Fail> {
    Ok(Sizes {
        frames: rooms.0,
        root: rooms.1,
        idle: rooms.2,
        layers: rooms.3,
        uses: rooms.4,
        requests: rooms.5,
        clock: Some(0),
        stacks: stacks(alloc, text)?,
    })
}

/// The events but the one at this place.
fn left_out(alloc: Global, events: &[Event], place: usize) -> Result<Vec<Event>, Fail> {
    let mut rest = Vec::new(alloc);
    for (at, event) in events.iter().enumerate() {
        if at != place {
            rest.push(*event)?;
        }
    }
    Ok(rest)
}

/// The events with the one at this place twice.
fn doubled(alloc: Global, events: &[Event], place: usize) -> Result<Vec<Event>, Fail> {
    let mut more = Vec::new(alloc);
    for (at, event) in events.iter().enumerate() {
        more.push(*event)?;
        if at == place {
            more.push(*event)?;
        }
    }
    Ok(more)
}

/// The events with the one at this place behind the next.
fn swapped(alloc: Global, events: &[Event], place: usize) -> Result<Vec<Event>, Fail> {
    let mut others = Vec::new(alloc);
    let mut held = None;
    for (at, event) in events.iter().enumerate() {
        if at == place {
            held = Some(*event);
        } else {
            others.push(*event)?;
            if let Some(first) = held {
                others.push(first)?;
                held = None;
            }
        }
    }
    if let Some(first) = held {
        others.push(first)?;
    }
    Ok(others)
}

/// Whether both judges say the same.
fn agree(alloc: Global, sizes: &Sizes, events: &[Event]) -> Result<bool, Fail> {
    Ok(judge(alloc, sizes, events)? == slowly_judged(alloc, sizes, events)?)
}

/// Whether both judges say the same of the events, and of each change of one of them.
pub fn variants_agree(alloc: Global, sizes: &Sizes, events: &[Event]) -> Result<bool, Fail> {
    for place in 0..events.len() {
        if !agree(alloc, sizes, &left_out(alloc, events, place)?)?
            || !agree(alloc, sizes, &doubled(alloc, events, place)?)?
            || !agree(alloc, sizes, &swapped(alloc, events, place)?)?
        {
            return Ok(false);
        }
    }
    agree(alloc, sizes, events)
}

#[test]
fn two_judges_agree_on_each_change_of_an_event(rt: HostRuntime) -> Result<(), Fail> {
    let alloc = rt.alloc();
    for (rooms, layers, text) in WHOLE {
        let sizes = sizes(alloc, rooms, layers)?;
        let events = events(alloc, text)?;
        assert!(rt; variants_agree(alloc, &sizes, &events)?, "{text}");
    }
    Ok(())
}

/// Whether the journal takes each event, and is whole at its end.
fn goes_through(alloc: Global, sizes: Sizes, events: &[Event]) -> Result<bool, Fail> {
    let mut journal = Journal::open(alloc, sizes);
    for event in events {
        if !journal.step(*event)? {
            return Ok(false);
        }
    }
    Ok(journal.is_whole() && journal.owes_nothing())
}

#[test]
fn whole_journals_are_whole(rt: HostRuntime) -> Result<(), Fail> {
    let alloc = rt.alloc();
    for (rooms, layers, text) in WHOLE {
        let events = events(alloc, text)?;
        let whole = goes_through(alloc, sizes(alloc, rooms, layers)?, &events)?;
        assert!(rt; whole, "{text}");
    }
    Ok(())
}
