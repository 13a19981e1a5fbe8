//! A line of the most bytes that a console may have, and the room that it takes.

use super::made::{hot_answer, small_totals, write};
use batch_output::{Outcome, make_room, write_batch};
use edge_streams::MemSink;
use std::alloc::Global;
use std::test::Fail;

/// The line of the answer up to its console, and the line of the totals.
const BEFORE: &[u8] = b"2 hot c1 u1 halt:3 9 none ";

const TOTALS: &[u8] = b"total 2 cold 1 warm 0 hot 1 none 0 free 96\n";

/// A batch of one answer, with 32,768 console bytes.
fn large(alloc: Global) -> Result<Outcome, Fail> {
    let mut console = Vec::new(alloc);
    for _ in 0..32_768 {
        console.extend_from_slice(b"Z")?;
    }
    Ok(Outcome {
        answers: vec![in alloc; hot_answer(alloc, console)?]?,
        events: Vec::new(alloc),
        totals: small_totals(),
    })
}

/// Its text, with 65,536 digits.
fn large_text(alloc: Global) -> Result<Vec<u8>, Fail> {
    let mut text = BEFORE.to_vec(alloc)?;
    for _ in 0..32_768 {
        text.extend_from_slice(b"5a")?;
    }
    text.extend_from_slice(b"\n")?;
    text.extend_from_slice(TOTALS)?;
    Ok(text)
}

#[test]
fn a_long_line_is_written(rt: HostRuntime) -> Result<(), Fail> {
    let alloc = rt.alloc();
    let outcome = large(alloc)?;
    let mut sink = MemSink::new(alloc, Vec::new(alloc));
    write(alloc, &outcome, &mut sink)?;
    let text = large_text(alloc)?;
    assert_eq!(rt; sink.as_slice(), text.as_slice());
    Ok(())
}

#[test]
fn a_long_line_is_cut(rt: HostRuntime) -> Result<(), Fail> {
    let alloc = rt.alloc();
    let outcome = large(alloc)?;
    let mut line = Vec::new(alloc);
    make_room(alloc, &outcome, &mut line)?;
    let mut sink = MemSink::in_pieces(alloc, 40_000, [2].to_vec(alloc)?);
    assert!(rt; write_batch(alloc, &mut sink, &outcome, &mut line).is_err());
    let mut text = large_text(alloc)?;
    text.truncate(40_000);
    assert_eq!(rt; sink.as_slice(), text.as_slice());
    Ok(())
}

#[test]
fn room_suffices_and_stays(rt: HostRuntime) -> Result<(), Fail> {
    let alloc = rt.alloc();
    let outcome = large(alloc)?;
    let mut line = Vec::new(alloc);
    make_room(alloc, &outcome, &mut line)?;
    let room = line.capacity();
    assert!(rt; room >= BEFORE.len() + 65_536 + 1);
    make_room(alloc, &outcome, &mut line)?;
    let mut sink = MemSink::new(alloc, Vec::new(alloc));
    assert!(rt; write_batch(alloc, &mut sink, &outcome, &mut line).is_ok());
    assert_eq!(rt; line.capacity(), room);
    Ok(())
}
