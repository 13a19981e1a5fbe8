//! Connections and doors, in memory and over the loopback.

use edge_links::{Door, Link, MemDoor, MemLink, StdDoor};
use edge_streams::Failed;
use std::alloc::{AllocError, Global};
use std::io::{Read, Write};
use std::net::TcpStream;
use std::process::Abort;
use std::test::Fail;
use std::time::Duration;

/// A door with links that hold `one` and `two`, of which the second fails at its second call.
fn door_of_two(alloc: Global, fails: Vec<u64>) -> Result<MemDoor, AllocError> {
    let mut links = Vec::new(alloc);
    links.push(MemLink::new(alloc, b"one".to_vec(alloc)?, Vec::new(alloc)))?;
    links.push(MemLink::new(alloc, b"two".to_vec(alloc)?, vec![in alloc; 2]?))?;
    MemDoor::new(alloc, links, fails)
}

#[test]
fn a_link_fails_as_planned(rt: HostRuntime) -> Result<(), Fail> {
    let alloc = rt.alloc();
    let mut link = MemLink::in_pieces(alloc, b"abc".to_vec(alloc)?, 2, vec![in alloc; 2]?);
    let mut buf = [0; 4];
    assert_eq!(rt; link.read(&mut buf), Ok(2));
    assert_eq!(rt; link.write(b"xyz"), Err(Failed));
    assert_eq!(rt; link.write(b"xyz"), Ok(2));
    assert_eq!(rt; buf, *b"ab\0\0");
    assert_eq!(rt; link.held(), b"abc".as_slice());
    assert_eq!(rt; link.left(), b"c".as_slice());
    assert_eq!(rt; link.sent(), b"xy".as_slice());
    assert_eq!(rt; link.faults(), 1);
    Ok(())
}

/// Serves one connection: reads once, and sends the bytes twice.
fn serve<D: Door>(door: &mut D, bytes: &[u8]) -> Result<(), Failed>
    requires { D.listens door.old }
    ensures { D.listens door.new }
{
    let mut conn = door.accept()?;
    let _ = conn.read(&mut [0; 4]);
    let _ = conn.write(bytes);
    let _ = conn.write(bytes);
    door.finish(conn);
    Ok(())
}

#[test]
fn a_door_tells_what_was_served(rt: HostRuntime) -> Result<(), Fail> {
    let alloc = rt.alloc();
    let mut first = door_of_two(alloc, Vec::new(alloc))?;
    first.listen("any")?;
    let mut door = door_of_two(alloc, vec![in alloc; 3]?)?;
    door.share(&first)?;
    assert_eq!(rt; serve(&mut door, b"1"), Ok(()));
    assert_eq!(rt; serve(&mut door, b"-"), Err(Failed));
    assert_eq!(rt; serve(&mut door, b"2"), Ok(()));
    assert_eq!(rt; serve(&mut door, b"-"), Err(Failed));
    assert_eq!(rt; (door.accepted(), door.refused(), door.faults()), (2, 2, 2));
    tells_both(&rt, door.finished())
}

/// Compares what the door of two served. It is split off so that no proof sees both.
fn tells_both(rt: &impl Abort, finished: &[MemLink]) -> Result<(), Fail> {
    let [one, two] = finished else {
        return Err(Fail::from("two links were finished"));
    };
    assert_eq!(rt; one.held(), b"one".as_slice());
    assert_eq!(rt; one.sent(), b"11".as_slice());
    assert_eq!(rt; one.faults(), 0);
    assert_eq!(rt; two.held(), b"two".as_slice());
    assert_eq!(rt; two.sent(), b"2".as_slice());
    assert_eq!(rt; two.faults(), 1);
    Ok(())
}

#[test]
fn the_system_has_doors(rt: HostRuntime) -> Result<(), Fail> {
    let mut first = StdDoor::new(&rt);
    first.listen("127.0.0.1:0")?;
    let mut door = StdDoor::new(&rt);
    door.share(&first)?;
    let mut peer = TcpStream::connect(&rt, ("127.0.0.1", door.port().ok_or("no port")?))?;
    peer.write_all(b"ping")?;
    let mut link = door.accept()?;
    let half_a_minute = Some(Duration::from_secs(30));
    assert_eq!(rt; link.stream().read_timeout()?, half_a_minute);
    assert_eq!(rt; link.stream().write_timeout()?, half_a_minute);
    let mut buf = [0; 4];
    assert_eq!(rt; link.read(&mut buf), Ok(4));
    assert_eq!(rt; buf, *b"ping");
    assert_eq!(rt; link.write(b"pong"), Ok(4));
    door.finish(link);
    peer.read_exact(&mut buf)?;
    assert_eq!(rt; buf, *b"pong");
    assert_eq!(rt; peer.read(&mut buf)?, 0);
    Ok(())
}

#[test]
fn the_system_refuses_an_address(rt: HostRuntime) -> Result<(), Fail> {
    let mut door = StdDoor::new(&rt);
    assert_eq!(rt; door.listen("127.0.0.1"), Err(Failed));
    assert_eq!(rt; door.faults(), 1);
    assert_eq!(rt; door.port(), None);
    Ok(())
}
