//! What a line says.

use journal_model::{Answer, End, How, Why};
use reply_lines::read_reply;
use std::alloc::Global;
use std::test::Fail;

/// The reply of a line.
fn answer(alloc: Global, line: &str) -> Result<Answer, Fail> {
    Ok(read_reply(alloc, line.as_bytes())?.ok_or("a reply's line")?)
}

#[test]
fn numbers_are_those_of_the_line(rt: HostRuntime) -> Result<(), Fail> {
    let answer = answer(rt.alloc(), "2 warm c3 u4 ok 5 0102/-/ff 6869")?;
    assert_eq!(rt; answer.i, 2);
    assert_eq!(rt; answer.context, 3);
    assert_eq!(rt; answer.used, 4);
    assert_eq!(rt; answer.steps, 5);
    assert_eq!(rt; answer.console.bytes(), b"hi".as_slice());
    Ok(())
}

#[test]
fn packets_are_those_of_the_line(rt: HostRuntime) -> Result<(), Fail> {
    let answer = answer(rt.alloc(), "2 warm c3 u4 ok 5 0102/-/ff 6869")?;
    let packets = answer.net.as_slice();
    assert_eq!(rt; packets.len(), 3);
    assert_eq!(rt; packets[0].bytes(), [1, 2].as_slice());
    assert!(rt; packets[1].bytes().is_empty());
    assert_eq!(rt; packets[2].bytes(), [255].as_slice());
    Ok(())
}

#[test]
fn contexts_come_from_where_it_says(rt: HostRuntime) -> Result<(), Fail> {
    let alloc = rt.alloc();
    for (line, how) in [
        ("1 cold c1 u0 ok 0 none -", How::Cold),
        ("1 warm c1 u0 ok 0 none -", How::Warm),
        ("1 hot c1 u0 ok 0 none -", How::Hot),
        ("1 none c0 u0 memory 0 none -", How::None),
    ] {
        let answer = answer(alloc, line)?;
        assert_eq!(rt; answer.how, how);
    }
    Ok(())
}

#[test]
fn requests_end_as_it_says(rt: HostRuntime) -> Result<(), Fail> {
    let alloc = rt.alloc();
    let (cause, pc, tval) = (15, 0x10014, 0x11000);
    let why = Why::Fault { cause, pc, tval };
    for (line, end) in [
        ("1 hot c1 u0 ok 0 none -", End::Ok),
        ("1 hot c1 u0 halt:7 0 none -", End::Halt { code: 7 }),
        (
            "1 hot c1 u0 fault:15:10014:11000 0 none -",
            End::Fault { cause, pc, tval },
        ),
        ("1 hot c1 u0 budget 0 none -", End::Budget),
        (
            "1 hot c1 u0 nolayer:9:rest 0 none -",
            End::NoLayer {
                k: 9,
                why: Why::Rest,
            },
        ),
        (
            "1 hot c1 u0 nolayer:0:fault:15:10014:11000 0 none -",
            End::NoLayer { k: 0, why },
        ),
        ("1 hot c1 u0 frames 0 none -", End::Frames),
        ("1 hot c1 u0 memory 0 none -", End::Memory),
    ] {
        let answer = answer(alloc, line)?;
        assert_eq!(rt; answer.end, end);
    }
    Ok(())
}
