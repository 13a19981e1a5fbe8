//! Lines that are no reply's.

use reply_lines::read_reply;
use std::test::Fail;

#[test]
fn lines_of_other_words_are_none(rt: HostRuntime) -> Result<(), Fail> {
    let alloc = rt.alloc();
    for line in [
        "",
        " ",
        "1",
        "1 cold c1 u0 ok 17 01",
        "1 cold c1 u0 ok 17 01 - ",
        "1 cold c1 u0 ok 17 01 - -",
        " 1 cold c1 u0 ok 17 01 -",
        "1  cold c1 u0 ok 17 01 -",
        "1 cold c1 u0 ok 17 01  -",
        "1 cold c1 u0 ok 17  01 -",
        "1 cold c1 u0 ok 17  -",
        "1\tcold c1 u0 ok 17 01 -",
        "1 cold c1 u0 ok 17 01 -\n",
        "01 cold c1 u0 ok 17 01 -",
        "+1 cold c1 u0 ok 17 01 -",
        "4294967296 cold c1 u0 ok 17 01 -",
        "1 Cold c1 u0 ok 17 01 -",
        "1 cool c1 u0 ok 17 01 -",
        "1 cold 1 u0 ok 17 01 -",
        "1 cold c u0 ok 17 01 -",
        "1 cold C1 u0 ok 17 01 -",
        "1 cold c01 u0 ok 17 01 -",
        "1 cold c4294967296 u0 ok 17 01 -",
        "1 cold c1 0 ok 17 01 -",
        "1 cold c1 u00 ok 17 01 -",
        "1 cold c1 u4294967296 ok 17 01 -",
        "1 cold u0 c1 ok 17 01 -",
        "1 cold c1 u0 ok 017 01 -",
        "1 cold c1 u0 ok 18446744073709551616 01 -",
        "1 none c1 u0 frames 0 none -",
        "1 none c0 u1 frames 0 none -",
        "1 cold c1 u0 nolayer:0:budget 1 none -",
        "1 cold c1 u0 nolayer:0:budget 0 - -",
        "1 cold c1 u0 nolayer:0:budget 0 none 00",
        "1 none c0 u0 frames 1 none -",
        "1 none c0 u0 memory 0 none 00",
    ] {
        assert!(rt; read_reply(alloc, line.as_bytes())?.is_none());
    }
    Ok(())
}

#[test]
fn lines_of_other_ends_are_none(rt: HostRuntime) -> Result<(), Fail> {
    let alloc = rt.alloc();
    for line in [
        "1 cold c1 u0 OK 0 none -",
        "1 cold c1 u0 rest 0 none -",
        "1 cold c1 u0 halt 0 none -",
        "1 cold c1 u0 halt: 0 none -",
        "1 cold c1 u0 halt:01 0 none -",
        "1 cold c1 u0 halt:a 0 none -",
        "1 cold c1 u0 halt:1:2 0 none -",
        "1 cold c1 u0 halt:18446744073709551616 0 none -",
        "1 cold c1 u0 fault:15:10014 0 none -",
        "1 cold c1 u0 fault:15:10014:11000:0 0 none -",
        "1 cold c1 u0 fault:015:10014:11000 0 none -",
        "1 cold c1 u0 fault:f:10014:11000 0 none -",
        "1 cold c1 u0 fault:15:010014:11000 0 none -",
        "1 cold c1 u0 fault:15:0x10014:11000 0 none -",
        "1 cold c1 u0 fault:15:1000A:11000 0 none -",
        "1 cold c1 u0 fault:15::11000 0 none -",
        "1 cold c1 u0 fault:15:10000000000000000:0 0 none -",
        "1 cold c1 u0 budget:1 0 none -",
        "1 cold c1 u0 nolayer 0 none -",
        "1 cold c1 u0 nolayer:0 0 none -",
        "1 cold c1 u0 nolayer:0:ok 0 none -",
        "1 cold c1 u0 nolayer:0:frames 0 none -",
        "1 cold c1 u0 nolayer:0:rest:1 0 none -",
        "1 cold c1 u0 nolayer:00:rest 0 none -",
        "1 cold c1 u0 nolayer:65536:rest 0 none -",
    ] {
        assert!(rt; read_reply(alloc, line.as_bytes())?.is_none());
    }
    Ok(())
}

#[test]
fn lines_of_other_bytes_are_none(rt: HostRuntime) -> Result<(), Fail> {
    let alloc = rt.alloc();
    for line in [
        "1 cold c1 u0 ok 17 0 -",
        "1 cold c1 u0 ok 17 012 -",
        "1 cold c1 u0 ok 17 0A -",
        "1 cold c1 u0 ok 17 0g -",
        "1 cold c1 u0 ok 17 / -",
        "1 cold c1 u0 ok 17 01/ -",
        "1 cold c1 u0 ok 17 /01 -",
        "1 cold c1 u0 ok 17 01//02 -",
        "1 cold c1 u0 ok 17 01/none -",
        "1 cold c1 u0 ok 17 none/01 -",
        "1 cold c1 u0 ok 17 -- -",
        "1 cold c1 u0 ok 17 -01 -",
        "1 cold c1 u0 ok 17 01 0",
        "1 cold c1 u0 ok 17 01 FF",
        "1 cold c1 u0 ok 17 01 none",
        "1 cold c1 u0 ok 17 01 01/02",
    ] {
        assert!(rt; read_reply(alloc, line.as_bytes())?.is_none());
    }
    Ok(())
}
