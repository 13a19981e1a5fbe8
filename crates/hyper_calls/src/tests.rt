use super::*;
use space_api::{Memory, Packet};
use std::test::Fail;

/// A packet of these bytes.
fn packet(rt: &HostRuntime, bytes: &[u8]) -> Result<Packet, Fail> {
    let alloc = rt.alloc();
    match Packet::new(Vec::from_slice(alloc, bytes)?) {
        Some(packet) => Ok(packet),
        None => Err(Fail::from("too long for a packet")),
    }
}

#[test]
fn ports_begin_anew(rt: HostRuntime) -> Result<(), Fail> {
    let alloc = rt.alloc();
    let mut ports = Ports::open(alloc, 5)?;
    assert!(rt; !ports.is_queued());
    assert_eq!(rt; ports.clock(), 5);
    let mut packets = Vec::new(alloc);
    packets.push(packet(&rt, b"ab")?)?;
    ports.begin(alloc, &packets, 7)?;
    assert!(rt; ports.is_queued());
    assert_eq!(rt; ports.clock(), 7);
    assert_eq!(rt; ports.sent(), 0);
    assert!(rt; ports.console().is_empty());
    ports.begin(alloc, &[], 9)?;
    assert!(rt; !ports.is_queued());
    Ok(())
}

/// Whether so many packets of one byte each, which is its number, are read in order.
fn reads_in_order(rt: &HostRuntime, count: u8) -> Result<bool, Fail> {
    let alloc = rt.alloc();
    let mut packets = Vec::new(alloc);
    for n in 0..count {
        packets.push(packet(rt, &[n])?)?;
    }
    let mut ports = Ports::open(alloc, 5)?;
    ports.begin(alloc, &packets, 7)?;
    let mut in_order = true;
    for n in 0..count {
        if !ports.is_queued() {
            return Ok(false);
        }
        in_order = in_order && ports.next() == [n].as_slice();
        ports.advance();
    }
    Ok(in_order && !ports.is_queued())
}

#[test]
fn packets_are_read_in_order(rt: HostRuntime) -> Result<(), Fail> {
    for count in [2, 65] {
        assert!(rt; reads_in_order(&rt, count)?, "{count}");
    }
    Ok(())
}
