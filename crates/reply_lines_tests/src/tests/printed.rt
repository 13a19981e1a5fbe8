//! Lines of replies and of totals that were made by hand.

use journal_model::{Answer, End, How, Packets, Totals, Why};
use machine_model::Packet;
use reply_lines::{print_reply, print_totals};
use std::alloc::Global;
use std::test::Fail;

/// The line of a reply that wrote nothing.
fn printed(alloc: Global, how: How, end: End) -> Result<Vec<u8>, Fail> {
    let console = Packet::new(Vec::new(alloc)).ok_or("no bytes are a packet")?;
    let answer = Answer {
        i: 1,
        how,
        context: 2,
        used: 3,
        end,
        steps: 4,
        net: Packets::none(alloc),
        console,
    };
    let mut out = Vec::new(alloc);
    print_reply(alloc, &answer, &mut out)?;
    Ok(out)
}

#[test]
fn each_way_has_its_word(rt: HostRuntime) -> Result<(), Fail> {
    let alloc = rt.alloc();
    for (how, line) in [
        (How::Cold, "1 cold c2 u3 ok 4 none -"),
        (How::Warm, "1 warm c2 u3 ok 4 none -"),
        (How::Hot, "1 hot c2 u3 ok 4 none -"),
        (How::None, "1 none c2 u3 ok 4 none -"),
    ] {
        let out = printed(alloc, how, End::Ok)?;
        assert_eq!(rt; out.as_slice(), line.as_bytes());
    }
    Ok(())
}

#[test]
fn each_end_has_its_word(rt: HostRuntime) -> Result<(), Fail> {
    let alloc = rt.alloc();
    let (cause, pc, tval) = (15, 0x10014, 0xabcdef0);
    for (end, line) in [
        (End::Ok, "1 hot c2 u3 ok 4 none -"),
        (End::Halt { code: 7 }, "1 hot c2 u3 halt:7 4 none -"),
        (
            End::Fault { cause, pc, tval },
            "1 hot c2 u3 fault:15:10014:abcdef0 4 none -",
        ),
        (End::Budget, "1 hot c2 u3 budget 4 none -"),
        (
            End::NoLayer {
                k: 9,
                why: Why::Rest,
            },
            "1 hot c2 u3 nolayer:9:rest 4 none -",
        ),
        (
            End::NoLayer {
                k: 9,
                why: Why::Budget,
            },
            "1 hot c2 u3 nolayer:9:budget 4 none -",
        ),
        (End::Frames, "1 hot c2 u3 frames 4 none -"),
        (End::Memory, "1 hot c2 u3 memory 4 none -"),
    ] {
        let out = printed(alloc, How::Hot, end)?;
        assert_eq!(rt; out.as_slice(), line.as_bytes());
    }
    Ok(())
}

#[test]
fn totals_go_behind_what_was_there(rt: HostRuntime) -> Result<(), Fail> {
    let alloc = rt.alloc();
    let totals = Totals {
        requests: 4294967295,
        cold: 1,
        warm: 2,
        hot: 3,
        none: 0,
        free: 131072,
    };
    let mut out = [b'x', b' '].to_vec(alloc)?;
    print_totals(alloc, &totals, &mut out)?;
    let line = "x total 4294967295 cold 1 warm 2 hot 3 none 0 free 131072";
    assert_eq!(rt; out.as_slice(), line.as_bytes());
    Ok(())
}
