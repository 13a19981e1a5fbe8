//! The execution of an image: its machine is made, given packets, and run to its first stop.

ghost use Rattle.std.specs.Prelude.{◌≡◌, ◌≢◌, ◌%◌, ◌<◌, IfOk, true};
ghost use Rattle.image_model.specs.StartOf as model;
ghost use Rattle.machine_model.specs.Loaded.{loaded};
ghost use Rattle.machine_model.specs.Run.{give, Replies};
ghost use Rattle.machine_run.specs.Continued as continued;
ghost use Rattle.plain_space.specs.PlainSpace.{flat, finished};
ghost use Rattle.space_api.specs.Flat.{flat_of};
ghost use Rattle.call_command.specs.Call.{call_stack, call_limits};

use hyper_calls::Ports;
use image_model::Image;
use image_start::start_of;
use machine_model::{Memory, Packet, Stop};
use machine_run::{Limits, Progress, RunEnd, Steps, parts_are_the_run, run};
use plain_space::{PlainShelf, PlainSpace, PlainStore};
use space_api::{Refused, Start, Store, first_hart};
use std::alloc::Global;
use std::slice;
use std::sync::ledger::{Blank, Ledger};

/// The size of the stack in bytes.
const STACK: u64 = 65_536;

/// What the clock shows, in nanoseconds.
const CLOCK: u64 = 0;

/// An execution ends at the program's own stop, or after so many instructions.
const LIMITS: Limits = Limits {
    trigger: None,
    budget: 100_000_000,
    pause: None,
};

/// Why an execution stopped, after how many instructions, and what it wrote.
#[derive(Drop)]
pub struct Execution {
    pub stop: Stop,
    pub number: u64,
    pub ports: Ports,
}

/// The stop that an end is, or none where memory ran out. A run over copied pages wants no
/// frames, and without a pause it doesn't pause.
fn stop_of(end: RunEnd) -> Option<Stop>
    requires unpaused { end ≢ RunEnd.Paused }
    requires served { end ≢ RunEnd.NeedFrames }
    ensures { result ≡ continued.stop_of end }
{
    match end {
        RunEnd::Rest => Some(Stop::Rest),
        RunEnd::Trigger => Some(Stop::Trigger),
        RunEnd::Halt(code) => Some(Stop::Halt { code }),
        RunEnd::Fault { cause, pc, tval } => Some(Stop::Exception { cause, pc, tval }),
        RunEnd::Budget => Some(Stop::Budget),
        RunEnd::Memory => None,
        RunEnd::Paused | RunEnd::NeedFrames => unreachable!(),
    }
}

/// A space of the start over copied pages, which may run. These take no frames, so only memory
/// can be wanted.
fn space_of(alloc: Global, start: &Start) -> Result<PlainSpace, Memory>
    ensures flat { IfOk result (λ space. flat space ≡ flat_of start.now) }
    ensures finished { IfOk result (λ space. finished space ≡ true) }
{
    let store = PlainStore::open(slice::from_ref(start))?;
    let mut shelf = PlainShelf::new(0);
    let mut image = match store.open_image(alloc, &mut shelf, 0) {
        Ok(image) => image,
        Err(Refused::Memory) => return Err(Memory),
        Err(Refused::Frames) => unreachable!(),
    };
    let mut space = match store.deploy(alloc, &mut image, &mut shelf) {
        Ok(space) => space,
        Err(Refused::Memory) => return Err(Memory),
        Err(Refused::Frames) => unreachable!(),
    };
    store.finish_deploy(&mut space);
    Ok(space)
}

/// Executes an image that is given these packets.
pub fn execute<L: Ledger>(
    alloc: Global,
    image: &Image,
    packets: &[Packet],
    blank: Blank,
) -> Result<Execution, Memory>
    requires name { blank.name ≡ L.name }
    requires parts { blank.parts ≡ L.parts }
    requires some { 0 < blank.parts }
    requires aligned { image.now.entry % 4 ≡ 0 }
    ensures { IfOk result (λ e. Replies 0 call_limits
        (give (loaded (model.start_of image.now call_stack)) packets.now)
        e.stop e.number e.ports.traffic.sent e.ports.traffic.console) }
{
    // This call does nothing: its contract is the law that the clause rests on.
    parts_are_the_run();
    let start = start_of(alloc, image, STACK)?;
    let mut hart = first_hart(&start);
    let mut space = space_of(alloc, &start)?;
    let mut ports = Ports::open(alloc, CLOCK)?;
    ports.begin(alloc, packets, CLOCK)?;
    let mut progress = Progress { done: 0 };
    let mut steps = Steps::<L>::new(blank);
    let end = run(
        &mut hart,
        &mut space,
        &mut ports,
        &LIMITS,
        &mut progress,
        &mut steps,
    );
    match stop_of(end) {
        Some(stop) => Ok(Execution {
            stop,
            number: progress.done,
            ports,
        }),
        None => Err(Memory),
    }
}
