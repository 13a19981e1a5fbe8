//! Texts, byte for byte.

use super::made::{SMALL_TEXT, small, write};
use batch_output::Outcome;
use edge_streams::MemSink;
use journal_model::Totals;
use std::test::Fail;

#[test]
fn a_small_batch_is_written(rt: HostRuntime) -> Result<(), Fail> {
    let alloc = rt.alloc();
    let outcome = small(alloc)?;
    let mut sink = MemSink::new(alloc, Vec::new(alloc));
    write(alloc, &outcome, &mut sink)?;
    assert_eq!(rt; sink.as_slice(), SMALL_TEXT);
    Ok(())
}

#[test]
fn an_empty_batch_has_totals_alone(rt: HostRuntime) -> Result<(), Fail> {
    let alloc = rt.alloc();
    let outcome = Outcome {
        answers: Vec::new(alloc),
        events: Vec::new(alloc),
        totals: Totals {
            requests: 0,
            cold: 0,
            warm: 0,
            hot: 0,
            none: 0,
            free: 7,
        },
    };
    let mut sink = MemSink::new(alloc, Vec::new(alloc));
    write(alloc, &outcome, &mut sink)?;
    let text = b"total 0 cold 0 warm 0 hot 0 none 0 free 7\n".as_slice();
    assert_eq!(rt; sink.as_slice(), text);
    Ok(())
}
