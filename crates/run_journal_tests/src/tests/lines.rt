//! Lines that are an event's, and lines that are none.

use run_journal::{print_event, read_event};
use std::alloc::Global;
use std::test::Fail;

/// The line of an event that is read from a line.
fn printed(alloc: Global, line: &str) -> Result<Vec<u8>, Fail> {
    let event = read_event(line.as_bytes()).ok_or("an event line")?;
    let mut out = Vec::new(alloc);
    print_event(alloc, &event, &mut out)?;
    Ok(out)
}

#[test]
fn lines_are_read_back(rt: HostRuntime) -> Result<(), Fail> {
    let alloc = rt.alloc();
    for line in [
        "start 4294967295 65535 18446744073709551615",
        "start 0 0 0",
        "take 1 0",
        "deploy 1 image 0 0",
        "deploy 4294967295 65535 4294967295 4294967295",
        "refill 1 0 1",
        "refill 4294967295 4294967295 4294967295",
        "built 1 0 0",
        "built 4294967295 65535 4294967295",
        "keep 0",
        "dup 65535",
        "drop 10",
        "evict 1",
        "park 4294967295",
        "end 20",
        "back 1",
        "refuse 0",
        "want 4294967295",
        "answer 0 1 0",
        "answer 4294967295 4294967295 4294967295",
    ] {
        let out = printed(alloc, line)?;
        assert_eq!(rt; out.as_slice(), line.as_bytes());
    }
    Ok(())
}

#[test]
fn a_line_fills_its_room(rt: HostRuntime) -> Result<(), Fail> {
    let alloc = rt.alloc();
    for line in [
        "start 4294967295 65535 18446744073709551615",
        "deploy 1 image 0 0",
        "keep 0",
    ] {
        let event = read_event(line.as_bytes()).ok_or("an event line")?;
        let mut out = Vec::with_capacity(alloc, line.len())?;
        print_event(alloc, &event, &mut out)?;
        assert_eq!(rt; out.as_slice(), line.as_bytes());
        assert_eq!(rt; out.capacity(), line.len());
    }
    Ok(())
}

#[test]
fn other_lines_are_none(rt: HostRuntime) -> Result<(), Fail> {
    for line in [
        "",
        " ",
        "start",
        "stop 1",
        "Keep 1",
        " keep 1",
        "keep",
        "keep ",
        "keep  1",
        "keep 1 ",
        "keep 1 2",
        "keep 01",
        "keep 00",
        "keep +1",
        "keep -1",
        "keep 65536",
        "keep 1\n",
        "keep 1\r",
        "keep a",
        "keep 1a",
        "keep\t1",
        "keep 99999999999999999999999",
        "dup 065",
        "drop 65536",
        "evict 0",
        "evict 4294967296",
        "park 0",
        "park 01",
        "end 0",
        "back 0",
        "back 4294967296",
        "refuse 01",
        "refuse 4294967296",
        "want -1",
        "want 4294967296",
        "take 0 1",
        "take 1",
        "take 1  1",
        "take 1 01",
        "take 4294967296 1",
        "take 1 4294967296",
        "start 1 0",
        "start 01 0 0",
        "start 1 00 0",
        "start 1 0 00",
        "start 4294967296 0 0",
        "start 1 65536 0",
        "start 1 0 18446744073709551616",
        "start 1 0 0 0",
        "start  1 0 0",
        "start +1 0 0",
        "deploy 0 image 1 1",
        "deploy 1 image 1",
        "deploy 1 images 1 1",
        "deploy 1  image 1 1",
        "deploy 1 image  1 1",
        "deploy 1 65536 1 1",
        "deploy 1 00 1 1",
        "deploy 1 image 01 1",
        "deploy 1 image 1 01",
        "deploy 1 -1 1 1",
        "deploy 1 0 4294967296 1",
        "refill 0 0 1",
        "refill 1 00 1",
        "refill 1 0 0",
        "refill 1 0 01",
        "refill 1 0 4294967296",
        "built 0 0 0",
        "built 1 65536 0",
        "built 1 0 00",
        "built 1 0 4294967296",
        "answer 1 0 0",
        "answer 01 1 0",
        "answer 1 01 0",
        "answer 1 1 00",
        "answer 1 1 4294967296",
        "answer 1 1",
    ] {
        assert_eq!(rt; read_event(line.as_bytes()), None, "{line}");
    }
    Ok(())
}
