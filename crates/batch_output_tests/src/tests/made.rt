//! What batches came to, and how tests write them.

use batch_output::{Outcome, make_room, write_batch};
use edge_streams::MemSink;
use journal_model::{Answer, End, Event, How, Packets, Totals};
use machine_model::Packet;
use std::alloc::Global;
use std::test::Fail;

/// The text of the small batch.
pub const SMALL_TEXT: &[u8] = b"1 cold c1 u0 ok 17 0aff -\n\
2 hot c1 u1 halt:3 9 none 486a\n\
start 1 0 7\n\
deploy 1 image 1 4\n\
answer 1 1 0\n\
park 1\n\
take 1 2\n\
total 2 cold 1 warm 0 hot 1 none 0 free 96\n";

/// A request that deployed its context from the image, and wrote a packet of two bytes.
fn cold_answer(alloc: Global) -> Result<Answer, Fail> {
    let packet = Packet::new(b"\x0a\xff".to_vec(alloc)?).ok_or("two bytes are a packet")?;
    let console = Packet::new(Vec::new(alloc)).ok_or("no bytes are a packet")?;
    Ok(Answer {
        i: 1,
        how: How::Cold,
        context: 1,
        used: 0,
        end: End::Ok,
        steps: 17,
        net: Packets::new(vec![in alloc; packet]?),
        console,
    })
}

/// A request that took the idle context, and wrote these bytes to the console.
pub fn hot_answer(alloc: Global, console: Vec<u8>) -> Result<Answer, Fail> {
    let console = Packet::new(console).ok_or("at most 32,768 bytes are a packet")?;
    Ok(Answer {
        i: 2,
        how: How::Hot,
        context: 1,
        used: 1,
        end: End::Halt { code: 3 },
        steps: 9,
        net: Packets::none(alloc),
        console,
    })
}

/// The totals of the small batch.
pub fn small_totals() -> Totals {
    Totals {
        requests: 2,
        cold: 1,
        warm: 0,
        hot: 1,
        none: 0,
        free: 96,
    }
}

/// The journal of the small batch.
fn small_events(alloc: Global) -> Result<Vec<Event>, Fail> {
    let events = [
        Event::Start { i: 1, f: 0, t: 7 },
        Event::Deploy {
            c: 1,
            k: None,
            i: 1,
            n: 4,
        },
        Event::Answer { i: 1, c: 1, u: 0 },
        Event::Park { c: 1 },
        Event::Take { c: 1, i: 2 },
    ];
    Ok(events.to_vec(alloc)?)
}

/// Two requests, of which the second took the context of the first.
pub fn small(alloc: Global) -> Result<Outcome, Fail> {
    let cold = cold_answer(alloc)?;
    let hot = hot_answer(alloc, b"Hj".to_vec(alloc)?)?;
    Ok(Outcome {
        answers: vec![in alloc; cold, hot]?,
        events: small_events(alloc)?,
        totals: small_totals(),
    })
}

/// Makes room for the lines of the batch, and writes them.
pub fn write(alloc: Global, outcome: &Outcome, sink: &mut MemSink) -> Result<(), Fail> {
    let mut line = Vec::new(alloc);
    make_room(alloc, outcome, &mut line)?;
    write_batch(alloc, sink, outcome, &mut line)?;
    Ok(())
}
