//! Small programs over copied pages, whose words an assembler made. What each of them does was
//! worked out by hand from the descriptions of the instructions and the hypercalls.
ghost use Rattle.std.specs.Prelude.{◌≡◌, ◌<◌};

mod guest;
mod table;
mod told;

use super::*;
use guest::{Guest, START, guest_of, packets_of};
use std::alloc::Global;
use std::marker::Brand;
use std::sync::ledger::{Blank, Ledger};
use std::test::Fail;
use told::{told_end, told_hart, told_load, told_ports};

/// What the clock shows.
const CLOCK: u64 = 1_700_000_000_123_456_789;

/// More instructions than any of the programs takes.
const BUDGET: u64 = 100_000_000;

/// More parts than a run is cut into here.
const PARTS: u64 = 1000;

/// Where runs are cut: not at all, and after so many instructions each.
const PAUSES: [Option<u64>; 5] = [None, Some(1), Some(2), Some(3), Some(7)];

/// The run of a program, over a ledger of its own.
fn run_in<L: Ledger>(guest: &mut Guest, limits: &Limits, blank: Blank) -> Option<RunEnd>
    requires name { blank.name ≡ L.name }
    requires parts { blank.parts ≡ L.parts }
    requires some { 0 < blank.parts }
{
    if guest.progress.done > limits.budget {
        return None;
    }
    let mut steps = Steps::<L>::new(blank);
    Some(run(
        &mut guest.hart,
        &mut guest.space,
        &mut guest.ports,
        limits,
        &mut guest.progress,
        &mut steps,
    ))
}

/// Runs a program to a stop or its pause. There is none where it is beyond its budget.
fn go_on(guest: &mut Guest, limits: &Limits) -> Option<RunEnd> {
    run_in::<Brand>(guest, limits, Blank::new(1))
}

/// Runs a program in parts up to its stop. Each part but the last counts as many instructions as
/// the pause says, and there is no end where one doesn't.
fn run_cut(guest: &mut Guest, pause: Option<u64>) -> Option<RunEnd> {
    let limits = Limits {
        trigger: None,
        budget: BUDGET,
        pause,
    };
    for _ in 0..PARTS {
        let before = guest.progress.done;
        let end = go_on(guest, &limits)?;
        if end != RunEnd::Paused {
            return Some(end);
        }
        if before.checked_add(pause?) != Some(guest.progress.done) {
            return None;
        }
    }
    None
}

/// Runs a program to its stop, in parts, and tells how it ended.
fn ran(alloc: Global, guest: &mut Guest, pause: Option<u64>) -> Option<String> {
    let end = run_cut(guest, pause)?;
    told_end(alloc, guest, end)
}

/// A number, or none for a dash.
fn number_of(text: &str) -> Option<Option<u64>> {
    if text == "-" {
        return Some(None);
    }
    Some(Some(text.parse().ok()?))
}

/// Limits: how many bytes into the program the trigger is, the budget, and the pause.
fn limits_of(text: &str) -> Option<Limits> {
    let (trigger, rest) = text.split_once(' ')?;
    let (budget, pause) = rest.split_once(' ')?;
    Some(Limits {
        trigger: number_of(trigger)?.map(|at| at.saturating_add(START)),
        budget: number_of(budget)?.unwrap_or(BUDGET),
        pause: number_of(pause)?,
    })
}

/// Goes on in one part within limits, and tells how it ended.
fn went_on(alloc: Global, guest: &mut Guest, limits: &str) -> Option<String> {
    let limits = limits_of(limits)?;
    let end = go_on(guest, &limits)?;
    told_end(alloc, guest, end)
}

/// Makes a program of its own.
fn renew(alloc: Global, guest: &mut Guest, given: &str) -> Option<String> {
    *guest = guest_of(alloc, given)?;
    String::from_str(alloc, "made").ok()
}

/// Gives a program its next packet, and begins to count anew.
fn begin(alloc: Global, guest: &mut Guest, packet: &str) -> Option<String> {
    let packets = packets_of(alloc, packet)?;
    guest.ports.begin(alloc, &packets, CLOCK).ok()?;
    guest.progress.done = 0;
    String::from_str(alloc, "given").ok()
}

/// Does what a line of the table says, with runs cut by a pause. Answers what it tells, or nothing
/// where it can't be done.
fn outcome_of(
    alloc: Global,
    guest: &mut Guest,
    pause: Option<u64>,
    command: &str,
) -> Option<String> {
    let (word, rest) = command.split_once(' ').unwrap_or((command, ""));
    match word {
        "new" => renew(alloc, guest, rest),
        "begin" => begin(alloc, guest, rest),
        "run" => ran(alloc, guest, pause),
        "go" => went_on(alloc, guest, rest),
        "hart" => told_hart(alloc, &guest.hart),
        "ports" => told_ports(alloc, &guest.ports),
        "load" => told_load(alloc, guest, rest),
        _ => None,
    }
}

/// Does what a line of the table says, and fails where it tells something else.
fn do_line(alloc: Global, guest: &mut Guest, pause: Option<u64>, line: &str) -> Result<(), Fail> {
    if line.starts_with('#') {
        return Ok(());
    }
    let (command, expected) = line.split_once(" | ").unwrap_or((line, ""));
    let found = outcome_of(alloc, guest, pause, command);
    if found.as_deref() == Some(expected) {
        return Ok(());
    }
    Err(Fail::new(format_args!("{line} {pause:?}: {found:?}")))
}

/// Does what the lines of the table say, with runs cut by a pause.
fn do_lines(alloc: Global, guest: &mut Guest, pause: Option<u64>) -> Result<(), Fail> {
    for line in table::LINES.lines() {
        do_line(alloc, guest, pause, line)?;
    }
    Ok(())
}

// However its runs are cut, a program does what the lines say.
#[test]
fn programs_do_as_worked_out(rt: HostRuntime) -> Result<(), Fail> {
    for pause in PAUSES {
        let mut guest = guest_of(rt.alloc(), "5 none 00000013").ok_or("no program")?;
        do_lines(rt.alloc(), &mut guest, pause)?;
    }
    Ok(())
}
