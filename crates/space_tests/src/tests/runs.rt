//! A run is one run, however it is cut.
ghost use Rattle.std.specs.Prelude.{◌≡◌, ◌<◌};

use super::guest::{Guest, guest_of};
use machine_run::{Limits, RunEnd, Steps, run};
use space_api::Space;
use std::alloc::Global;
use std::marker::Brand;
use std::sync::ledger::{Blank, Ledger};
use std::test::Fail;

/// More instructions than the program takes.
const BUDGET: u64 = 1000;

/// More parts than a run is cut into here.
const PARTS: u64 = 1000;

/// How many instructions the program has.
const WHOLE: u64 = 19;

/// How many frames its stores and its net read need together.
const NEED: u32 = 13;

/// The run of a program, over a ledger of its own.
fn run_in<L: Ledger>(guest: &mut Guest, pause: Option<u64>, blank: Blank) -> Option<RunEnd>
    requires name { blank.name ≡ L.name }
    requires parts { blank.parts ≡ L.parts }
    requires some { 0 < blank.parts }
{
    let limits = Limits {
        trigger: None,
        budget: BUDGET,
        pause,
    };
    if guest.progress.done > BUDGET {
        return None;
    }
    let mut steps = Steps::<L>::new(blank);
    Some(run(
        &mut guest.hart,
        &mut guest.space,
        &mut guest.ports,
        &limits,
        &mut guest.progress,
        &mut steps,
    ))
}

/// Runs a program to a stop, its pause, or where it wants frames.
fn go_on(guest: &mut Guest, pause: Option<u64>) -> Option<RunEnd> {
    run_in::<Brand>(guest, pause, Blank::new(1))
}

/// Runs a program in parts to its stop, and gives a spare each time that it wants frames. Answers
/// how it ended, and how often it wanted them.
fn run_cut(guest: &mut Guest, pause: Option<u64>) -> Option<(RunEnd, u32)> {
    let mut wanted = 0_u32;
    for _ in 0..PARTS {
        match go_on(guest, pause)? {
            RunEnd::Paused => {}
            RunEnd::NeedFrames => {
                wanted = wanted.saturating_add(1);
                guest.space.refill(1);
            }
            end => return Some((end, wanted)),
        }
    }
    None
}

/// Whether a program wrote its packet again.
fn echoes(guest: &Guest) -> bool {
    guest.ports.sent() == 1 && guest.ports.packet(0) == [1, 2, 3, 4].as_slice()
}

/// Whether two programs have the same registers and counts, and the same bytes where the program
/// stores, and the second wrote its packet again.
fn are_alike(a: &mut Guest, b: &mut Guest) -> bool {
    let mut alike = a.hart == b.hart && a.progress == b.progress && echoes(b);
    for at in [
        0x1f_fffc,
        0x20_0000,
        0x20_1000,
        0x3f_effc,
        0x3fff_fff8,
        0x4000_0000,
    ] {
        alike = alike && a.space.load(at, 8) == b.space.load(at, 8);
    }
    alike
}

/// Whether a run that is cut by each want of a frame and by pauses is the whole one, wants as many
/// frames as that spends, and has spent them all.
fn is_whole(alloc: Global, whole: &mut Guest, pause: Option<u64>) -> Option<bool> {
    let mut cut = guest_of(alloc)?;
    let end = run_cut(&mut cut, pause)?;
    Some(end == (RunEnd::Halt(0), NEED) && cut.space.held() == 0 && are_alike(whole, &mut cut))
}

/// Whether the run with spares enough is as it should be, and each that is cut is the same.
fn all_whole(alloc: Global) -> Option<bool> {
    let mut whole = guest_of(alloc)?;
    whole.space.refill(16);
    let end = run_cut(&mut whole, None)?;
    if end != (RunEnd::Halt(0), 0) || whole.space.held() != 16 - NEED {
        return Some(false);
    }
    let mut holds = whole.progress.done == WHOLE && echoes(&whole);
    holds = holds && is_whole(alloc, &mut whole, None)?;
    for pause in 1..WHOLE {
        holds = holds && is_whole(alloc, &mut whole, Some(pause))?;
    }
    Some(holds)
}

#[test]
fn cut_runs_are_whole(rt: HostRuntime) -> Result<(), Fail> {
    assert_eq!(rt; all_whole(rt.alloc()), Some(true));
    Ok(())
}
