//! The lines of replies and of totals.

ghost use Rattle.std.specs.Prelude.{◌≡◌, ◌≤◌, ◌++◌, is_ok, IsOk, OnOk, OnErr, vec_capacity};
ghost use Rattle.reply_words.specs.Pushes.{Pushes, HasRoom};
ghost use Rattle.reply_lines.specs.Line as model;

use crate::ending::push_end;
use crate::service::push_service;
use journal_model::{Answer, Totals};
use machine_model::Memory;
use reply_words::{Piece, push_packets, push_pieces};
use std::alloc::Global;

/// Pushes `END STEPS PACKETS CONSOLE`. `Memory` where there is too little of it; what was there
/// stays.
fn push_run(out: &mut Vec<u8>, answer: &Answer) -> Result<(), Memory>
    ensures pushed { Pushes (is_ok result) (model.run_text answer.now) out.old.items out.new.items }
    ensures room { HasRoom (model.run_text answer.now) out.old → IsOk result }
    ensures capacity { vec_capacity out.old ≤ vec_capacity out.new }
{
    push_end(out, answer.end)?;
    push_pieces(
        out,
        &[
            Piece::Text(" "),
            Piece::Decimal(answer.steps),
            Piece::Text(" "),
        ],
    )?;
    push_packets(out, answer.net.as_slice())?;
    push_pieces(
        out,
        &[Piece::Text(" "), Piece::Bytes(answer.console.bytes())],
    )
}

/// Pushes the line of a reply. `Memory` where there is too little of it; what was there stays.
fn push_reply(out: &mut Vec<u8>, answer: &Answer) -> Result<(), Memory>
    ensures pushed { Pushes (is_ok result) (model.reply_line answer.now)
        out.old.items out.new.items }
    ensures room { HasRoom (model.reply_line answer.now) out.old → IsOk result }
    ensures capacity { vec_capacity out.old ≤ vec_capacity out.new }
{
    push_service(out, answer)?;
    push_run(out, answer)
}

/// Pushes the line of totals. `Memory` where there is too little of it; what was there stays.
fn push_totals(out: &mut Vec<u8>, totals: &Totals) -> Result<(), Memory>
    ensures pushed { Pushes (is_ok result) (model.totals_line totals.now)
        out.old.items out.new.items }
    ensures room { HasRoom (model.totals_line totals.now) out.old → IsOk result }
    ensures capacity { vec_capacity out.old ≤ vec_capacity out.new }
{
    push_pieces(
        out,
        &[
            Piece::Text("total "),
            Piece::Decimal(u64::from(totals.requests)),
            Piece::Text(" cold "),
            Piece::Decimal(u64::from(totals.cold)),
            Piece::Text(" warm "),
            Piece::Decimal(u64::from(totals.warm)),
            Piece::Text(" hot "),
            Piece::Decimal(u64::from(totals.hot)),
            Piece::Text(" none "),
            Piece::Decimal(u64::from(totals.none)),
            Piece::Text(" free "),
            Piece::Decimal(u64::from(totals.free)),
        ],
    )
}

/// Adds the line of a reply to bytes, without the line's end. Where memory ran out the bytes are
/// as before. The bytes bring the allocator that is used.
pub fn print_reply(_alloc: Global, answer: &Answer, out: &mut Vec<u8>) -> Result<(), Memory>
    ensures ok { OnOk result (out.new.items ≡ out.old.items ++ model.reply_line answer.now) }
    ensures err { OnErr result (out.new.items ≡ out.old.items) }
    ensures room { HasRoom (model.reply_line answer.now) out.old → IsOk result }
    ensures capacity { vec_capacity out.old ≤ vec_capacity out.new }
{
    let before = out.len();
    match push_reply(out, answer) {
        Ok(()) => Ok(()),
        Err(_) => {
            out.truncate(before);
            Err(Memory)
        }
    }
}

/// Adds the line of totals to bytes, without the line's end. Where memory ran out the bytes are as
/// before. The bytes bring the allocator that is used.
pub fn print_totals(_alloc: Global, totals: &Totals, out: &mut Vec<u8>) -> Result<(), Memory>
    ensures ok { OnOk result (out.new.items ≡ out.old.items ++ model.totals_line totals.now) }
    ensures err { OnErr result (out.new.items ≡ out.old.items) }
    ensures room { HasRoom (model.totals_line totals.now) out.old → IsOk result }
    ensures capacity { vec_capacity out.old ≤ vec_capacity out.new }
{
    let before = out.len();
    match push_totals(out, totals) {
        Ok(()) => Ok(()),
        Err(_) => {
            out.truncate(before);
            Err(Memory)
        }
    }
}
