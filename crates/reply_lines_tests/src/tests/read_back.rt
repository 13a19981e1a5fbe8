//! Lines that are read and printed back.

use reply_lines::{print_reply, read_reply};
use std::alloc::Global;
use std::test::Fail;

/// The line of the reply that is read from a line.
fn printed(alloc: Global, line: &[u8]) -> Result<Vec<u8>, Fail> {
    let answer = read_reply(alloc, line)?.ok_or("a reply's line")?;
    let mut out = Vec::new(alloc);
    print_reply(alloc, &answer, &mut out)?;
    Ok(out)
}

#[test]
fn lines_are_read_back(rt: HostRuntime) -> Result<(), Fail> {
    let alloc = rt.alloc();
    for line in [
        "1 cold c1 u0 ok 17 01 -",
        "3 hot c1 u2 ok 15 03 -",
        "1 cold c1 u0 nolayer:0:budget 0 none -",
        "1 none c0 u0 frames 0 none -",
        "1 none c0 u0 memory 0 none -",
        "2 warm c2 u0 fault:15:10014:11000 5 0102/-/ff 6869",
        "0 warm c0 u0 budget 0 none -",
        "5 warm c1 u0 halt:0 3 - 00",
        "6 cold c7 u0 fault:0:0:0 0 none -",
        "6 cold c7 u0 fault:10:a:f0 0 -/- -",
        "7 cold c1 u0 nolayer:65535:rest 0 none -",
        "7 cold c1 u0 nolayer:1:halt:7 0 none -",
        "7 cold c1 u0 nolayer:3:fault:2:10000:0 0 none -",
        "8 hot c1 u9 frames 0 none -",
        "8 warm c1 u0 memory 0 none -",
        "9 none c0 u0 ok 1 00 -",
        "10 cold c1 u0 ok 17 0123456789abcdef 00",
        "4294967295 hot c4294967295 u4294967295 ok 18446744073709551615 none ff",
        "1 hot c1 u1 halt:18446744073709551615 0 none -",
        "1 hot c1 u1 nolayer:0:halt:18446744073709551615 0 none -",
        "1 hot c1 u1 fault:18446744073709551615:ffffffffffffffff:ffffffffffffffff 0 none -",
    ] {
        let out = printed(alloc, line.as_bytes())?;
        assert_eq!(rt; out.as_slice(), line.as_bytes());
    }
    Ok(())
}
