//! Steps on shared frames.

use crate::problem::Problem;
use crate::words::number;
use frame_rounds::{MOST_FRAMES, StepKind, opened, played};
use std::alloc::Global;

/// The number of frames of a table of this size that was opened.
fn open_table(alloc: Global, count: u64) -> Result<u64, Problem> {
    let Ok(frames) = u32::try_from(count) else {
        return Err(Problem::Words);
    };
    if frames == 0 || frames > MOST_FRAMES {
        return Err(Problem::Words);
    }
    Ok(opened(alloc, frames)? as u64)
}

/// Opens a table, where the step is named `open`, or plays so many rounds of the step. Answers
/// the frames of the table, or what the loads saw.
pub fn frames_part(alloc: Global, step: &str, count: &str) -> Result<u64, Problem> {
    let count = number(count)?;
    if step == "open" {
        return open_table(alloc, count);
    }
    let Some(kind) = StepKind::named(step) else {
        return Err(Problem::Words);
    };
    Ok(played(alloc, kind, count)?)
}
