//! A command whose file finds no memory.

use crate::Scarce;
use edge_streams::{MemSink, MemSource};
use seuss_top::{Plain, Status, run_plain};
use std::alloc::AllocError;
use std::test::Fail;

/// The status of want of memory.
const WANTED: Status = 7;

#[test]
fn a_call_that_finds_no_memory_says_so(rt: HostRuntime) -> Result<(), AllocError> {
    let alloc = rt.alloc();
    let mut arguments = Vec::new(alloc);
    arguments.push(String::from_str(alloc, "call")?)?;
    arguments.push(String::from_str(alloc, "echo.elf")?)?;
    let packet = b"left".to_vec(alloc)?;
    let mut source = MemSource::new(packet, Vec::new(alloc));
    let mut sink = MemSink::new(alloc, Vec::new(alloc));
    let mut errs = MemSink::new(alloc, Vec::new(alloc));
    let plain = run_plain(
        alloc,
        &arguments,
        &mut Scarce,
        &mut source,
        &mut sink,
        &mut errs,
    );
    assert_eq!(rt; plain, Plain::Done(WANTED));
    assert_eq!(rt; errs.as_slice(), b"seuss: memory\n".as_slice());
    assert!(rt; sink.as_slice().is_empty());
    assert_eq!(rt; source.left(), b"left".as_slice());
    Ok(())
}
