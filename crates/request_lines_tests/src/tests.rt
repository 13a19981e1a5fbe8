//! Texts of request lines, each with what it says by hand.

ghost use Rattle.std.specs.Prelude.{◌≤◌, ◌^◌, IfOk, length};

use request_lines::{Request, read_requests};
use space_api::{Names, Text};
use std::alloc::{AllocError, Global};
use std::test::Fail;

mod rows;

use rows::{DIGITS, LINES, NAMES, SHAPES};

/// A name of 32 bytes.
const LONGEST: &str = "abcdefghijklmnopqrstuvwxyz-01234";

/// Names of which three begin one another, one that is spelled as no byte, and one of 32 bytes.
fn names(alloc: Global) -> Result<Names, AllocError>
    ensures { IfOk result (λ names. length names ≤ 2 ^ 16) }
{
    let first = Text::copy_of(alloc, "su")?;
    let second = Text::copy_of(alloc, "sum")?;
    let third = Text::copy_of(alloc, "summa")?;
    let dash = Text::copy_of(alloc, "-")?;
    let longest = Text::copy_of(alloc, LONGEST)?;
    let list = vec![in alloc; second, first, third, dash, longest]?;
    Ok(Names::from_vec(list))
}

/// `ok`, and `FUNCTION:DIGITS` of each request behind a space.
fn shown(alloc: Global, requests: &[Request]) -> Result<String, AllocError> {
    let mut text = String::from_str(alloc, "ok")?;
    for request in requests {
        let digits = hex::encode(alloc, request.packet.bytes())?;
        let function = request.function;
        text.push_str(format!(in alloc; " {function}:{digits}")?.as_str())?;
    }
    Ok(text)
}

/// What a text says: its requests, or its fault.
fn told(alloc: Global, text: &[u8]) -> Result<String, AllocError> {
    let names = names(alloc)?;
    match read_requests(alloc, text, &names) {
        Ok(requests) => shown(alloc, &requests),
        Err(fault) => format!(in alloc; "{fault}"),
    }
}

/// Whether each text says what stands beside it.
fn say(alloc: Global, rows: &[(&str, &str)]) -> Result<bool, AllocError> {
    for (text, want) in rows {
        let said = told(alloc, text.as_bytes())?;
        if said.as_str() != *want {
            return Ok(false);
        }
    }
    Ok(true)
}

#[test]
fn lines_end_where_they_should(rt: HostRuntime) -> Result<(), Fail> {
    assert!(rt; say(rt.alloc(), &LINES)?);
    Ok(())
}

#[test]
fn one_space_is_right(rt: HostRuntime) -> Result<(), Fail> {
    assert!(rt; say(rt.alloc(), &SHAPES)?);
    Ok(())
}

#[test]
fn names_are_exact(rt: HostRuntime) -> Result<(), Fail> {
    assert!(rt; say(rt.alloc(), &NAMES)?);
    Ok(())
}

#[test]
fn digits_are_even(rt: HostRuntime) -> Result<(), Fail> {
    assert!(rt; say(rt.alloc(), &DIGITS)?);
    Ok(())
}

/// What a line of so many zeros says, with an end behind them.
fn zeros(alloc: Global, count: usize, end: &str) -> Result<String, AllocError> {
    let mut text = b"sum ".to_vec(alloc)?;
    text.extend_from_slice(&vec![in alloc; b'0'; count]?)?;
    text.extend_from_slice(end.as_bytes())?;
    told(alloc, &text)
}

#[test]
fn the_longest_packet_is_read(rt: HostRuntime) -> Result<(), Fail> {
    let said = zeros(rt.alloc(), 65_536, "\r\n")?;
    assert_eq!(rt; said.len(), 65_536 + 5);
    Ok(())
}

#[test]
fn a_longer_packet_is_refused(rt: HostRuntime) -> Result<(), Fail> {
    let alloc = rt.alloc();
    assert_eq!(rt; zeros(alloc, 65_537, "")?.as_str(), "line 1 Hex");
    assert_eq!(rt; zeros(alloc, 65_538, "\n")?.as_str(), "line 1 Long");
    assert_eq!(rt; zeros(alloc, 65_537, "g")?.as_str(), "line 1 Hex");
    Ok(())
}

/// What a text says that has so many good lines between two ends.
fn among(alloc: Global, first: &str, count: usize, last: &str) -> Result<String, AllocError> {
    let mut text = first.as_bytes().to_vec(alloc)?;
    for _ in 0..count {
        text.extend_from_slice(b"su -\n")?;
    }
    text.extend_from_slice(last.as_bytes())?;
    told(alloc, &text)
}

#[test]
fn as_many_lines_as_may_be_are_read(rt: HostRuntime) -> Result<(), Fail> {
    let alloc = rt.alloc();
    let size = 2 + 4_096 * 3;
    assert_eq!(rt; among(alloc, "", 4_096, "")?.len(), size);
    assert_eq!(rt; among(alloc, "", 4_095, "su -")?.len(), size);
    Ok(())
}

#[test]
fn a_line_more_is_too_many(rt: HostRuntime) -> Result<(), Fail> {
    let alloc = rt.alloc();
    assert_eq!(rt; among(alloc, "", 4_097, "")?.as_str(), "line 4097 Many");
    assert_eq!(rt; among(alloc, "", 4_096, "\n")?.as_str(), "line 4097 Many");
    assert_eq!(rt;
        among(alloc, "", 4_096, "su 0\nx")?.as_str(),
        "line 4097 Many"
    );
    Ok(())
}

#[test]
fn an_earlier_fault_comes_before_too_many(rt: HostRuntime) -> Result<(), Fail> {
    let alloc = rt.alloc();
    assert_eq!(rt; among(alloc, "x\n", 4_096, "")?.as_str(), "line 1 Shape");
    assert_eq!(rt;
        among(alloc, "", 4_095, "su 0\nsu -")?.as_str(),
        "line 4096 Hex"
    );
    Ok(())
}
