//! A reply, read from its line.

ghost use Rattle.std.specs.Prelude.{◌≡◌, MatchOption, IfOk, None, Some};
ghost use Rattle.journal_model.specs.declared.answer.Answer.{Answer};
ghost use Rattle.reply_lines.specs.Line.{IsReplyLine};
ghost use Rattle.reply_lines.specs.Reading as model;

use crate::ending::read_end;
use crate::service::{front, read_service};
use journal_model::{Answer, End, How};
use machine_model::Memory;
use reply_words::{cut, read_bytes, read_decimal, read_packets};
use std::alloc::Global;

/// The last four words of a line.
#[derive(Clone, Copy)]
struct BackWords<'a> {
    end: &'a [u8],
    steps: &'a [u8],
    net: &'a [u8],
    console: &'a [u8],
}

/// The last four words of a line.
#[tactic(auto, unfolding(crate::specs::Reading::back_of))]
fn back(text: &[u8]) -> Option<BackWords<'_>>
    ensures { MatchOption result (model.back_of text.now ≡ None) (λ back.
        model.back_of text.now ≡ Some (record {
          end = back.end.now;
          steps = back.steps.now;
          net = back.net.now;
          console = back.console.now;
        })) }
{
    let (end, rest) = cut(b' ', text)?;
    let (steps, rest) = cut(b' ', rest)?;
    let (net, console) = cut(b' ', rest)?;
    Some(BackWords {
        end,
        steps,
        net,
        console,
    })
}

/// What a line says up to its packets, and the words of these and of the console's bytes.
#[derive(Clone, Copy)]
struct Heading<'a> {
    i: u32,
    how: How,
    context: u32,
    used: u32,
    end: End,
    steps: u64,
    net: &'a [u8],
    console: &'a [u8],
}

/// What a line says up to its packets.
#[tactic(auto, unfolding(crate::specs::Reading::heading_of))]
fn read_heading(line: &[u8]) -> Option<Heading<'_>>
    ensures { MatchOption result (model.heading_of line.now ≡ None) (λ heading.
        model.heading_of line.now ≡ Some (record {
          i = heading.i;
          how = heading.how;
          context = heading.context;
          used = heading.used;
          end = heading.end;
          steps = heading.steps;
          net = heading.net.now;
          console = heading.console.now;
        })) }
{
    let front = front(line)?;
    let back = back(front.rest)?;
    let service = read_service(&front)?;
    let end = read_end(back.end)?;
    let steps = read_decimal(u64::MAX, back.steps)?;
    Some(Heading {
        i: service.i,
        how: service.how,
        context: service.context,
        used: service.used,
        end,
        steps,
        net: back.net,
        console: back.console,
    })
}

/// Whether a context's number and use are 0 where there was none.
fn has_service(how: How, context: u32, used: u32) -> bool
    ensures { result ≡ model.has_service how context used }
{
    match how {
        How::Cold => true,
        How::Warm => true,
        How::Hot => true,
        How::None => context == 0 && used == 0,
    }
}

/// Whether nothing was run and nothing written.
fn has_nothing(answer: &Answer) -> bool
    ensures { result ≡ model.has_nothing answer.now.steps answer.now.net answer.now.console }
{
    answer.steps == 0 && answer.net.as_slice().is_empty() && answer.console.bytes().is_empty()
}

/// Whether nothing was run and nothing written where the request had no run.
fn has_run(answer: &Answer) -> bool
    ensures { result ≡ model.has_run answer.now }
{
    match answer.end {
        End::Ok => true,
        End::Halt { .. } => true,
        End::Fault { .. } => true,
        End::Budget => true,
        End::NoLayer { .. } => has_nothing(answer),
        End::Frames => has_nothing(answer),
        End::Memory => has_nothing(answer),
    }
}

/// The reply that the line spells, as the definition reads it. `Memory` where there is too little
/// of it.
#[tactic(auto, unfolding(crate::specs::Reading::reply_of))]
fn read_line(alloc: Global, line: &[u8]) -> Result<Option<Answer>, Memory>
    ensures { IfOk result (λ found. found ≡ model.reply_of line.now) }
{
    let Some(heading) = read_heading(line) else {
        return Ok(None);
    };
    let Some(net) = read_packets(alloc, heading.net)? else {
        return Ok(None);
    };
    let Some(console) = read_bytes(alloc, heading.console)? else {
        return Ok(None);
    };
    let answer = Answer {
        i: heading.i,
        how: heading.how,
        context: heading.context,
        used: heading.used,
        end: heading.end,
        steps: heading.steps,
        net,
        console,
    };
    if has_service(answer.how, answer.context, answer.used) && has_run(&answer) {
        Ok(Some(answer))
    } else {
        Ok(None)
    }
}

/// The reply that a line spells, without the line's end. None exactly where it spells none: where
/// a word, a space, a number or the range of one isn't as it must be, a packet or the console has
/// more than 32,768 bytes, `none` stands with a context, or a request without a run with what only
/// a run gives. `Memory` where there is too little of it.
pub fn read_reply(alloc: Global, line: &[u8]) -> Result<Option<Answer>, Memory>
    ensures { IfOk result (λ found. MatchOption found
        ((answer : Answer) → IsReplyLine line.now answer → ⊥)
        (λ answer. IsReplyLine line.now answer)) }
{
    read_line(alloc, line)
}
