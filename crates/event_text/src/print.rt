//! The line of an event.

ghost use Rattle.std.specs.Prelude.{◌≡◌, ◌≤◌, ◌++◌, is_ok, IsOk, OnOk, OnErr, codes, vec_capacity};
ghost use Rattle.std.specs.Prelude.{None, Some};
ghost use Rattle.journal_model.specs.Line as model;
ghost use Rattle.reply_words.specs.Pushes.{Pushes, HasRoom};

use journal_model::Event;
use machine_model::Memory;
use reply_words::{Piece, push_pieces};
use std::alloc::Global;

/// Pushes a word and a number. `Memory` where there is too little of it; what was there stays.
fn push_one(out: &mut Vec<u8>, word: &str, a: u32) -> Result<(), Memory>
    ensures pushed { Pushes (is_ok result) (word.now ++ model.one_number a)
        out.old.items out.new.items }
    ensures room { HasRoom (word.now ++ model.one_number a) out.old → IsOk result }
    ensures capacity { vec_capacity out.old ≤ vec_capacity out.new }
{
    push_pieces(
        out,
        &[
            Piece::Text(word),
            Piece::Text(" "),
            Piece::Decimal(u64::from(a)),
        ],
    )
}

/// Pushes a word and two numbers. `Memory` where there is too little of it; what was there stays.
fn push_two(out: &mut Vec<u8>, word: &str, a: u32, b: u32) -> Result<(), Memory>
    ensures pushed { Pushes (is_ok result) (word.now ++ model.two_numbers a b)
        out.old.items out.new.items }
    ensures room { HasRoom (word.now ++ model.two_numbers a b) out.old → IsOk result }
    ensures capacity { vec_capacity out.old ≤ vec_capacity out.new }
{
    push_pieces(
        out,
        &[
            Piece::Text(word),
            Piece::Text(" "),
            Piece::Decimal(u64::from(a)),
            Piece::Text(" "),
            Piece::Decimal(u64::from(b)),
        ],
    )
}

/// Pushes a word and three numbers. `Memory` where there is too little of it; what was there stays.
fn push_three(out: &mut Vec<u8>, word: &str, a: u32, b: u32, c: u64) -> Result<(), Memory>
    ensures pushed { Pushes (is_ok result) (word.now ++ model.three_numbers a b c)
        out.old.items out.new.items }
    ensures room { HasRoom (word.now ++ model.three_numbers a b c) out.old → IsOk result }
    ensures capacity { vec_capacity out.old ≤ vec_capacity out.new }
{
    push_pieces(
        out,
        &[
            Piece::Text(word),
            Piece::Text(" "),
            Piece::Decimal(u64::from(a)),
            Piece::Text(" "),
            Piece::Decimal(u64::from(b)),
            Piece::Text(" "),
            Piece::Decimal(c),
        ],
    )
}

/// Pushes the line of a `deploy` of the image. `Memory` where there is too little of it; what was
/// there stays.
fn push_image(out: &mut Vec<u8>, c: u32, i: u32, n: u32) -> Result<(), Memory>
    ensures pushed { Pushes (is_ok result) (codes "deploy" ++ model.deploy_numbers c None i n)
        out.old.items out.new.items }
    ensures room { HasRoom (codes "deploy" ++ model.deploy_numbers c None i n) out.old
        → IsOk result }
    ensures capacity { vec_capacity out.old ≤ vec_capacity out.new }
{
    push_pieces(
        out,
        &[
            Piece::Text("deploy "),
            Piece::Decimal(u64::from(c)),
            Piece::Text(" image "),
            Piece::Decimal(u64::from(i)),
            Piece::Text(" "),
            Piece::Decimal(u64::from(n)),
        ],
    )
}

/// Pushes the line of a `deploy` of a layer. `Memory` where there is too little of it; what was
/// there stays.
fn push_layer(out: &mut Vec<u8>, c: u32, k: u16, i: u32, n: u32) -> Result<(), Memory>
    ensures pushed { Pushes (is_ok result) (codes "deploy" ++ model.deploy_numbers c (Some k) i n)
        out.old.items out.new.items }
    ensures room { HasRoom (codes "deploy" ++ model.deploy_numbers c (Some k) i n) out.old
        → IsOk result }
    ensures capacity { vec_capacity out.old ≤ vec_capacity out.new }
{
    push_pieces(
        out,
        &[
            Piece::Text("deploy "),
            Piece::Decimal(u64::from(c)),
            Piece::Text(" "),
            Piece::Decimal(u64::from(k)),
            Piece::Text(" "),
            Piece::Decimal(u64::from(i)),
            Piece::Text(" "),
            Piece::Decimal(u64::from(n)),
        ],
    )
}

/// Pushes the line of an event. `Memory` where there is too little of it; what was there stays.
fn push_event(out: &mut Vec<u8>, event: Event) -> Result<(), Memory>
    ensures pushed { Pushes (is_ok result) (model.event_line event) out.old.items out.new.items }
    ensures room { HasRoom (model.event_line event) out.old → IsOk result }
    ensures capacity { vec_capacity out.old ≤ vec_capacity out.new }
{
    match event {
        Event::Start { i, f, t } => push_three(out, "start", i, u32::from(f), t),
        Event::Take { c, i } => push_two(out, "take", c, i),
        Event::Deploy { c, k, i, n } => match k {
            Some(k) => push_layer(out, c, k, i, n),
            None => push_image(out, c, i, n),
        },
        Event::Refill { c, h, n } => push_three(out, "refill", c, h, u64::from(n)),
        Event::Built { c, k, d } => push_three(out, "built", c, u32::from(k), u64::from(d)),
        Event::Keep { k } => push_one(out, "keep", u32::from(k)),
        Event::Dup { k } => push_one(out, "dup", u32::from(k)),
        Event::Drop { k } => push_one(out, "drop", u32::from(k)),
        Event::Evict { c } => push_one(out, "evict", c),
        Event::Park { c } => push_one(out, "park", c),
        Event::End { c } => push_one(out, "end", c),
        Event::Back { n } => push_one(out, "back", n),
        Event::Refuse { i } => push_one(out, "refuse", i),
        Event::Want { i } => push_one(out, "want", i),
        Event::Answer { i, c, u } => push_three(out, "answer", i, c, u64::from(u)),
    }
}

/// Adds the line of an event to bytes, without the line's end. Where memory ran out the bytes are
/// as before. The bytes bring the allocator that is used.
pub fn print_event(_alloc: Global, event: &Event, out: &mut Vec<u8>) -> Result<(), Memory>
    ensures ok { OnOk result (out.new.items ≡ out.old.items ++ model.event_line event.now) }
    ensures err { OnErr result (out.new.items ≡ out.old.items) }
    ensures room { HasRoom (model.event_line event.now) out.old → IsOk result }
    ensures capacity { vec_capacity out.old ≤ vec_capacity out.new }
{
    let before = out.len();
    match push_event(out, *event) {
        Ok(()) => Ok(()),
        Err(_) => {
            out.truncate(before);
            Err(Memory)
        }
    }
}
