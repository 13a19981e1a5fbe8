//! Writes that fail.

use super::made::{SMALL_TEXT, small};
use batch_output::{make_room, write_batch};
use edge_streams::MemSink;
use std::alloc::Global;
use std::test::Fail;

/// How many bytes of the small batch go out, five a call, where this call fails; none where all
/// of them do.
fn written_before(alloc: Global, call: u64) -> Result<Option<usize>, Fail> {
    let outcome = small(alloc)?;
    let mut line = Vec::new(alloc);
    make_room(alloc, &outcome, &mut line)?;
    let mut sink = MemSink::in_pieces(alloc, 5, [call].to_vec(alloc)?);
    let is_whole = write_batch(alloc, &mut sink, &outcome, &mut line).is_ok();
    if !SMALL_TEXT.starts_with(sink.as_slice()) {
        return Err("no front part")?;
    }
    if is_whole {
        return Ok(None);
    }
    Ok(Some(sink.as_slice().len()))
}

#[test]
fn a_front_part_goes_out(rt: HostRuntime) -> Result<(), Fail> {
    let alloc = rt.alloc();
    for (call, written) in [(1, Some(0)), (20, Some(95)), (32, Some(155)), (33, None)] {
        assert_eq!(rt; written_before(alloc, call)?, written);
    }
    Ok(())
}
