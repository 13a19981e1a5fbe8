//! What the table's lines tell of a program.

use super::guest::Guest;
use crate::limits::RunEnd;
use hyper_calls::Ports;
use space_api::{Hart, Space};
use std::alloc::{AllocError, Global};

/// Why a run stopped.
fn told_stop(alloc: Global, end: RunEnd) -> Result<String, AllocError> {
    match end {
        RunEnd::Rest => String::from_str(alloc, "rest"),
        RunEnd::Fault { cause, pc, tval } => format!(in alloc; "exception {cause} {pc:x} {tval:x}"),
        RunEnd::Halt(code) => format!(in alloc; "halt {code:x}"),
        other => format!(in alloc; "{other:?}"),
    }
}

/// How many bytes the packets have that were written.
fn size_of(ports: &Ports) -> usize {
    let mut size = 0_usize;
    for n in 0..ports.sent() {
        size = size.saturating_add(ports.packet(n).len());
    }
    size
}

/// Why a run stopped; then how many instructions were counted, and how many packets, bytes of
/// packets and console bytes were written.
pub fn told_end(alloc: Global, guest: &Guest, end: RunEnd) -> Option<String> {
    let stop = told_stop(alloc, end).ok()?;
    let packets = guest.ports.sent();
    let size = size_of(&guest.ports);
    let console = guest.ports.console().len();
    format!(in alloc;
        "{stop} | {} {packets} {size} {console}",
        guest.progress.done
    )
    .ok()
}

/// Whether a hart rests, its program counter, and its registers that aren't 0.
pub fn told_hart(alloc: Global, hart: &Hart) -> Option<String> {
    let mut text = format!(in alloc; "{} {:x}", hart.resting, hart.pc).ok()?;
    for n in 0..32 {
        let value = hart.register(n);
        if value != 0 {
            text = format!(in alloc; "{text} x{n}={value:x}").ok()?;
        }
    }
    Some(text)
}

/// Whether a packet is queued, the console bytes, and each packet that was written.
pub fn told_ports(alloc: Global, ports: &Ports) -> Option<String> {
    let mut text = format!(in alloc; "{} {:?}", ports.is_queued(), ports.console()).ok()?;
    for n in 0..ports.sent() {
        text = format!(in alloc; "{text} {:?}", ports.packet(n)).ok()?;
    }
    Some(text)
}

/// The number of the four bytes at an address.
pub fn told_load(alloc: Global, guest: &mut Guest, at: &str) -> Option<String> {
    let at = u64::from_str_radix(at, 16).ok()?;
    let number = guest.space.load(at, 4).ok()?;
    format!(in alloc; "{number:x}").ok()
}
