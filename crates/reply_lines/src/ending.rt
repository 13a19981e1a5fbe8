//! How a request ended.

ghost use Rattle.std.specs.Prelude.{◌≡◌, ◌≤◌, is_ok, IsOk, vec_capacity};
ghost use Rattle.reply_words.specs.Pushes.{Pushes, HasRoom};
ghost use Rattle.reply_lines.specs.Line.{why_text, end_text};
ghost use Rattle.reply_lines.specs.Reading as model;
ghost use Rattle.journal_model.specs.declared.answer.End.TheVariants.{NoLayer};

use journal_model::{End, Why};
use machine_model::Memory;
use reply_words::{Piece, cut, is, push_pieces, read_decimal, read_hexadecimal};

/// Pushes `fault:CAUSE:PC:TVAL`. `Memory` where there is too little of it; what was there stays.
fn push_fault(out: &mut Vec<u8>, cause: u64, pc: u64, tval: u64) -> Result<(), Memory>
    ensures pushed { Pushes (is_ok result) (why_text (Why.Fault cause pc tval))
        out.old.items out.new.items }
    ensures room { HasRoom (why_text (Why.Fault cause pc tval)) out.old → IsOk result }
    ensures capacity { vec_capacity out.old ≤ vec_capacity out.new }
{
    push_pieces(
        out,
        &[
            Piece::Text("fault:"),
            Piece::Decimal(cause),
            Piece::Text(":"),
            Piece::Hexadecimal(pc),
            Piece::Text(":"),
            Piece::Hexadecimal(tval),
        ],
    )
}

/// Pushes why a layer's run ended without one. `Memory` where there is too little of it; what was
/// there stays.
fn push_why(out: &mut Vec<u8>, why: Why) -> Result<(), Memory>
    ensures pushed { Pushes (is_ok result) (why_text why) out.old.items out.new.items }
    ensures room { HasRoom (why_text why) out.old → IsOk result }
    ensures capacity { vec_capacity out.old ≤ vec_capacity out.new }
{
    match why {
        Why::Rest => push_pieces(out, &[Piece::Text("rest")]),
        Why::Halt { code } => push_pieces(out, &[Piece::Text("halt:"), Piece::Decimal(code)]),
        Why::Fault { cause, pc, tval } => push_fault(out, cause, pc, tval),
        Why::Budget => push_pieces(out, &[Piece::Text("budget")]),
    }
}

/// Pushes that layer `k` couldn't be made, and why. `Memory` where there is too little of it; what
/// was there stays.
fn push_no_layer(out: &mut Vec<u8>, k: u16, why: Why) -> Result<(), Memory>
    ensures pushed { Pushes (is_ok result) (end_text (NoLayer k why)) out.old.items out.new.items }
    ensures room { HasRoom (end_text (NoLayer k why)) out.old → IsOk result }
    ensures capacity { vec_capacity out.old ≤ vec_capacity out.new }
{
    push_pieces(
        out,
        &[
            Piece::Text("nolayer:"),
            Piece::Decimal(u64::from(k)),
            Piece::Text(":"),
        ],
    )?;
    push_why(out, why)
}

/// Pushes how a request ended. `Memory` where there is too little of it; what was there stays.
pub fn push_end(out: &mut Vec<u8>, end: End) -> Result<(), Memory>
    ensures pushed { Pushes (is_ok result) (end_text end) out.old.items out.new.items }
    ensures room { HasRoom (end_text end) out.old → IsOk result }
    ensures capacity { vec_capacity out.old ≤ vec_capacity out.new }
{
    match end {
        End::Ok => push_pieces(out, &[Piece::Text("ok")]),
        End::Halt { code } => push_why(out, Why::Halt { code }),
        End::Fault { cause, pc, tval } => push_fault(out, cause, pc, tval),
        End::Budget => push_why(out, Why::Budget),
        End::NoLayer { k, why } => push_no_layer(out, k, why),
        End::Frames => push_pieces(out, &[Piece::Text("frames")]),
        End::Memory => push_pieces(out, &[Piece::Text("memory")]),
    }
}

/// An end of a program's own, by its code.
fn read_halt(text: &[u8]) -> Option<Why>
    ensures { result ≡ model.halt_of text.now }
{
    let code = read_decimal(u64::MAX, text)?;
    Some(Why::Halt { code })
}

/// A fault, by `CAUSE:PC:TVAL`.
#[tactic(auto, unfolding(crate::specs::Reading::fault_of))]
fn read_fault(text: &[u8]) -> Option<Why>
    ensures { result ≡ model.fault_of text.now }
{
    let (cause, rest) = cut(b':', text)?;
    let (pc, tval) = cut(b':', rest)?;
    let cause = read_decimal(u64::MAX, cause)?;
    let pc = read_hexadecimal(u64::MAX, pc)?;
    let tval = read_hexadecimal(u64::MAX, tval)?;
    Some(Why::Fault { cause, pc, tval })
}

/// Why a layer's run ended without one, by its word.
#[tactic(auto, unfolding(crate::specs::Reading::why_of))]
fn read_why(word: &[u8]) -> Option<Why>
    ensures { result ≡ model.why_of word.now }
{
    if is(word, "rest") {
        return Some(Why::Rest);
    }
    if is(word, "budget") {
        return Some(Why::Budget);
    }
    let (name, text) = cut(b':', word)?;
    if is(name, "halt") {
        return read_halt(text);
    }
    if is(name, "fault") {
        return read_fault(text);
    }
    None
}

/// A layer that couldn't be made, by `K:WHY`.
#[tactic(auto, unfolding(crate::specs::Reading::layer_of))]
fn read_layer(text: &[u8]) -> Option<End>
    ensures { result ≡ model.layer_of text.now }
{
    let (k, why) = cut(b':', text)?;
    let k = read_decimal(u64::from(u16::MAX), k)?;
    let why = read_why(why)?;
    Some(End::NoLayer { k: k as u16, why })
}

/// A layer that couldn't be made, by its word.
#[tactic(auto, unfolding(crate::specs::Reading::no_layer_of))]
fn read_no_layer(word: &[u8]) -> Option<End>
    ensures { result ≡ model.no_layer_of word.now }
{
    let (name, text) = cut(b':', word)?;
    if is(name, "nolayer") {
        return read_layer(text);
    }
    None
}

/// The ends that no number stands with, and that no layer's run has.
#[tactic(auto, unfolding(crate::specs::Reading::named_end))]
fn read_named(word: &[u8]) -> Option<End>
    ensures { result ≡ model.named_end word.now }
{
    if is(word, "ok") {
        return Some(End::Ok);
    }
    if is(word, "frames") {
        return Some(End::Frames);
    }
    if is(word, "memory") {
        return Some(End::Memory);
    }
    None
}

/// The end of a request's run that ended as a layer's run does; none at rest, for which the
/// request's word is another.
fn run_end(why: Why) -> Option<End>
    ensures { result ≡ model.run_end why }
{
    match why {
        Why::Rest => None,
        Why::Halt { code } => Some(End::Halt { code }),
        Why::Fault { cause, pc, tval } => Some(End::Fault { cause, pc, tval }),
        Why::Budget => Some(End::Budget),
    }
}

/// How a request ended, by its word.
#[tactic(auto, unfolding(crate::specs::Reading::end_of))]
pub fn read_end(word: &[u8]) -> Option<End>
    ensures { result ≡ model.end_of word.now }
{
    if let Some(end) = read_named(word) {
        return Some(end);
    }
    if let Some(end) = read_no_layer(word) {
        return Some(end);
    }
    run_end(read_why(word)?)
}
