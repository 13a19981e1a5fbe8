//! The lines of a batch, sent to a sink.

ghost use Rattle.std.specs.Prelude.{◌≡◌, ◌≤◌, OnOk, OnErr, vec_capacity};
ghost use Rattle.batch_model.specs.Text.{ended};
ghost use Rattle.batch_output.specs.Lines.{AllFit, Fits, lines_text};
ghost use Rattle.batch_output.specs.Outcomes.{IsRoomFor, outcome_text};
ghost use Rattle.edge_streams.specs.Content.{Adds};
ghost use Rattle.edge_streams.specs.Faults.{Rises};
ghost use Rattle.output_buffer.specs.Sent.{IsCut, Sends, way};

use crate::line::{Line, fill};
use crate::outcome::Outcome;
use edge_streams::{Failed, Sink};
use output_buffer::{Buffer, flush, push};
use std::alloc::Global;

/// Sends a line with its end, printed into bytes that have room for it.
fn push_line<K: Sink, L: Line>(
    alloc: Global,
    sink: &mut K,
    buffer: &mut Buffer,
    item: &L,
    line: &mut Vec<u8>,
)
    requires room { Fits (vec_capacity line.old) (L.spelled item.now) }
    ensures sent { Sends (ended (L.spelled item.now))
        (way K.contents K.faults sink.old buffer.old)
        (way K.contents K.faults sink.new buffer.new) }
    ensures capacity { vec_capacity line.old ≤ vec_capacity line.new }
{
    match fill(alloc, item, line) {
        Ok(()) => push(sink, buffer, line),
        Err(_) => unreachable!(),
    }
}

/// Sends lines in their order, each with its end, printed into bytes that have room for each.
fn push_lines<K: Sink, L: Line>(
    alloc: Global,
    sink: &mut K,
    buffer: &mut Buffer,
    items: &[L],
    line: &mut Vec<u8>,
)
    requires room { AllFit L.spelled (vec_capacity line.old) items.now }
    ensures sent { Sends (lines_text L.spelled items.now)
        (way K.contents K.faults sink.old buffer.old)
        (way K.contents K.faults sink.new buffer.new) }
    ensures capacity { vec_capacity line.old ≤ vec_capacity line.new }
{
    'items: for item in items {
        push_line(alloc, sink, buffer, item, line);
    }
}

/// Sends the lines of the batch, printed into bytes that have room for each: the answers, the
/// events and the totals.
fn push_outcome<K: Sink>(
    alloc: Global,
    sink: &mut K,
    buffer: &mut Buffer,
    outcome: &Outcome,
    line: &mut Vec<u8>,
)
    requires room { IsRoomFor (vec_capacity line.old) outcome.now }
    ensures { Sends (outcome_text outcome.now) (way K.contents K.faults sink.old buffer.old)
        (way K.contents K.faults sink.new buffer.new) }
{
    push_lines(alloc, sink, buffer, &outcome.answers, line);
    push_lines(alloc, sink, buffer, &outcome.events, line);
    push_line(alloc, sink, buffer, &outcome.totals, line);
}

/// Writes the lines of the batch: the answers, the events and the totals, each line with its end.
/// They are printed one after the other into `line`, which has room for each, as `make_room` leaves
/// it, so that no memory is taken. They go out in pieces.
///
/// The error is that a write failed. A part of the lines was then written, from the front.
pub fn write_batch<K: Sink>(
    alloc: Global,
    sink: &mut K,
    outcome: &Outcome,
    line: &mut Vec<u8>,
) -> Result<(), Failed>
    requires room { IsRoomFor (vec_capacity line.old) outcome.now }
    ensures written { OnOk result (Adds (outcome_text outcome.now)
        (K.contents sink.old) (K.contents sink.new)) }
    ensures cut { OnErr result (IsCut (outcome_text outcome.now)
        (K.contents sink.old) (K.contents sink.new)) }
    ensures failed { OnErr result (Rises (K.faults sink.old) (K.faults sink.new)) }
    ensures counted { OnOk result (K.faults sink.new ≡ K.faults sink.old) }
    ensures never_falls { K.faults sink.old ≤ K.faults sink.new }
{
    let mut buffer = Buffer::new();
    push_outcome(alloc, sink, &mut buffer, outcome, line);
    flush(sink, &mut buffer)
}
