//! Texts at the limits of what is assembled, each with what becomes of it.

use crate::tests::answer;
use rv_asm::assemble;
use std::alloc::{AllocError, Global};
use std::test::Fail;

/// So many segments, pages apart, with an instruction each: two lines a segment. The number is
/// read as a hexadecimal one.
fn segments(alloc: Global, count: u32) -> Result<String, AllocError> {
    let mut text = String::new(alloc);
    for number in 1..=count {
        let lines = format!(in alloc; ".segment 0x{number}000 rx 4\nebreak\n")?;
        text.push_str(lines.as_str())?;
    }
    Ok(text)
}

#[test]
fn segments_up_to_sixteen(rt: HostRuntime) -> Result<(), Fail> {
    for (count, want) in [(16, "ok"), (17, "34 BadShape")] {
        let text = segments(rt.alloc(), count)?;
        let got = answer(rt.alloc(), text.as_str())?;
        assert_eq!(rt; got.as_str(), want);
    }
    Ok(())
}

/// Two labels of which the first has 1,000 bytes, with what stands between its `a` and the end of
/// the second, and a jump to that.
fn long_labels(alloc: Global, more: &str) -> Result<String, AllocError> {
    let name = "a".repeat(alloc, 1000)?;
    let name = name.as_str();
    format!(in alloc; ".segment 0x10000 rx 64\n{name}:\n{name}{more}:\njal x0, {name}{more}\n")
}

#[test]
fn labels_of_a_thousand_bytes(rt: HostRuntime) -> Result<(), Fail> {
    for (more, want) in [("b", "ok"), ("", "3 TwiceDefined")] {
        let text = long_labels(rt.alloc(), more)?;
        let got = answer(rt.alloc(), text.as_str())?;
        assert_eq!(rt; got.as_str(), want);
    }
    Ok(())
}

/// A segment of 70,000 bytes, with so many more `.byte` lines than fill it.
fn bytes(alloc: Global, more: usize) -> Result<String, AllocError> {
    let lines = "\n.byte 7".repeat(alloc, 70_000)?;
    let behind = "\n.byte 9".repeat(alloc, more)?;
    let lines = lines.as_str();
    let behind = behind.as_str();
    format!(in alloc; ".segment 0x10000 rx 70000{lines}{behind}")
}

#[test]
fn seventy_thousand_bytes(rt: HostRuntime) -> Result<(), Fail> {
    for (more, want) in [(0, "ok"), (1, "70002 OutOfRange")] {
        let text = bytes(rt.alloc(), more)?;
        let got = answer(rt.alloc(), text.as_str())?;
        assert_eq!(rt; got.as_str(), want);
    }
    Ok(())
}

/// A file of 16,777,216 bytes, of which 120 are the file header and a program header.
#[test]
fn the_longest_file(rt: HostRuntime) -> Result<(), Fail> {
    let text = ".segment 0x10000 rx 0x1000000\n.zero 16777096";
    let file = assemble(rt.alloc(), text)?;
    assert_eq!(rt; file.len(), 16_777_216);
    Ok(())
}
