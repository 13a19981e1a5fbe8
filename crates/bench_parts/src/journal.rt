//! A journal, read from its lines and judged.

use crate::problem::Problem;
use edge_files::Files;
use run_journal::{Event, FunctionStack, Judged, Sizes, judge, read_event};
use std::alloc::{AllocError, Global};

/// The most bytes of a file of event lines.
const FILE_LIMIT: u64 = 67_108_864;

/// The layers of the second function: as many as a plan may have, but the one of the first.
fn deep_stack(alloc: Global) -> Result<FunctionStack, AllocError> {
    let mut layers = Vec::with_capacity(alloc, 63)?;
    for k in 1..64_u16 {
        layers.push(k)?;
    }
    Ok(FunctionStack { start: 0, layers })
}

/// A function of one layer and one of 63, over frames, with the greatest rooms of a plan.
fn sizes(alloc: Global) -> Result<Sizes, AllocError> {
    let first = FunctionStack {
        start: 0,
        layers: vec![in alloc; 0]?,
    };
    Ok(Sizes {
        frames: 65_536,
        root: 1,
        idle: 256,
        layers: 256,
        uses: 64,
        requests: 4_096,
        clock: Some(0),
        stacks: vec![in alloc; first, deep_stack(alloc)?]?,
    })
}

/// The events of lines, each of which ends with a line feed.
fn events(alloc: Global, lines: &[u8]) -> Result<Vec<Event>, Problem> {
    let mut events = Vec::new(alloc);
    for (number, line) in lines.split(|byte| *byte == b'\n').enumerate() {
        match read_event(line) {
            Some(event) => events.push(event).map_err(|_| Problem::Memory)?,
            None if line.is_empty() => {}
            None => return Err(Problem::Line(number)),
        }
    }
    Ok(events)
}

/// The verdict on the journal of the file.
pub fn judge_file<F: Files>(alloc: Global, files: &mut F, name: &str) -> Result<Judged, Problem> {
    let lines = files.read_file(alloc, name, FILE_LIMIT)?;
    let events = events(alloc, &lines)?;
    Ok(judge(alloc, &sizes(alloc)?, &events)?)
}
