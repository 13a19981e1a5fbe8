//! What is printed as a line, and one line after the other in the same bytes.

ghost use Rattle.std.specs.Prelude.{◌≡◌, ◌≤◌, ◌++◌, ℕ, List, IsOk, OnOk, vec_capacity};
ghost use Rattle.batch_model.specs.Text.{ended};
ghost use Rattle.batch_output.specs.Lines.{Fits};
ghost use Rattle.journal_model.specs.Line.{event_line};
ghost use Rattle.reply_lines.specs.Line.{reply_line, totals_line};
ghost use Rattle.reply_words.specs.Pushes.{HasRoom};

use event_text::print_event;
use journal_model::{Answer, Event, Totals};
use machine_model::Memory;
use reply_lines::{print_reply, print_totals};
use std::alloc::Global;

/// What is printed as a line.
pub trait Line {
    /// The line, without its end.
    ghost spelled: { Self → List ℕ };

    /// Adds the line to bytes, without the line's end. `Memory` where there is too little of it,
    /// which isn't so where the bytes have room for the line.
    fn print(&self, alloc: Global, out: &mut Vec<u8>) -> Result<(), Memory>
        ensures ok { OnOk result (out.new.items ≡ out.old.items ++ spelled self.now) }
        ensures room { HasRoom (spelled self.now) out.old → IsOk result }
        ensures capacity { vec_capacity out.old ≤ vec_capacity out.new };
}

impl Line for Answer {
    ghost spelled = { reply_line };

    /// The line of the reply.
    fn print(&self, alloc: Global, out: &mut Vec<u8>) -> Result<(), Memory> {
        print_reply(alloc, self, out)
    }
}

impl Line for Event {
    ghost spelled = { event_line };

    /// The line of the event.
    fn print(&self, alloc: Global, out: &mut Vec<u8>) -> Result<(), Memory> {
        print_event(alloc, self, out)
    }
}

impl Line for Totals {
    ghost spelled = { totals_line };

    /// The line of the totals.
    fn print(&self, alloc: Global, out: &mut Vec<u8>) -> Result<(), Memory> {
        print_totals(alloc, self, out)
    }
}

/// Prints a line with its end into bytes, whatever they held. `Memory` where there is too little
/// of it, which isn't so where they have room for the line and its end; the bytes may then hold
/// the line without its end, or nothing.
pub fn fill<L: Line>(alloc: Global, item: &L, line: &mut Vec<u8>) -> Result<(), Memory>
    ensures filled { OnOk result (line.new.items ≡ ended (L.spelled item.now)) }
    ensures fits { OnOk result (Fits (vec_capacity line.new) (L.spelled item.now)) }
    ensures room { Fits (vec_capacity line.old) (L.spelled item.now) → IsOk result }
    ensures capacity { vec_capacity line.old ≤ vec_capacity line.new }
{
    line.clear();
    item.print(alloc, line)?;
    line.extend_from_slice(b"\n")?;
    Ok(())
}
