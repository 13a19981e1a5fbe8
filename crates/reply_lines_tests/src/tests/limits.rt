//! Packets and a console of the most bytes, and of one more; lines in room that just suffices.

use reply_lines::{print_reply, read_reply};
use std::alloc::Global;
use std::test::Fail;

/// A line with so many bytes between two parts of it.
fn line(alloc: Global, before: &str, bytes: usize, after: &str) -> Result<Vec<u8>, Fail> {
    let mut line = before.as_bytes().to_vec(alloc)?;
    for _ in 0..bytes {
        line.extend_from_slice(b"5a")?;
    }
    line.extend_from_slice(after.as_bytes())?;
    Ok(line)
}

/// Whether the line is a reply's, and is printed as it was.
fn is_read_back(alloc: Global, line: &[u8]) -> Result<bool, Fail> {
    let Some(answer) = read_reply(alloc, line)? else {
        return Ok(false);
    };
    let mut out = Vec::new(alloc);
    print_reply(alloc, &answer, &mut out)?;
    Ok(out.as_slice() == line)
}

#[test]
fn a_packet_has_at_most_so_many_bytes(rt: HostRuntime) -> Result<(), Fail> {
    let alloc = rt.alloc();
    for (bytes, is_reply) in [(32_768, true), (32_769, false)] {
        let line = line(alloc, "1 cold c1 u0 ok 17 01/", bytes, " -")?;
        assert_eq!(rt; is_read_back(alloc, &line)?, is_reply);
    }
    Ok(())
}

#[test]
fn a_console_has_at_most_so_many_bytes(rt: HostRuntime) -> Result<(), Fail> {
    let alloc = rt.alloc();
    for (bytes, is_reply) in [(32_768, true), (32_769, false)] {
        let line = line(alloc, "1 cold c1 u0 ok 17 01 ", bytes, "")?;
        assert_eq!(rt; is_read_back(alloc, &line)?, is_reply);
    }
    Ok(())
}

#[test]
fn many_packets_are_read_back(rt: HostRuntime) -> Result<(), Fail> {
    let alloc = rt.alloc();
    let mut line = b"1 cold c1 u0 ok 17 -".to_vec(alloc)?;
    for _ in 0..10_000 {
        line.extend_from_slice(b"/07")?;
    }
    line.extend_from_slice(b" -")?;
    assert!(rt; is_read_back(alloc, &line)?);
    Ok(())
}

#[test]
fn a_line_fills_its_room(rt: HostRuntime) -> Result<(), Fail> {
    let alloc = rt.alloc();
    let line = "1 cold c1 u0 fault:15:10014:abcdef0 17 0aff/- 5a".as_bytes();
    let answer = read_reply(alloc, line)?.ok_or("a reply's line")?;
    let mut out = Vec::with_capacity(alloc, line.len())?;
    print_reply(alloc, &answer, &mut out)?;
    assert_eq!(rt; out.as_slice(), line);
    assert_eq!(rt; out.capacity(), line.len());
    Ok(())
}
