//! Worked values of layers and contexts, by hand from the programs' words and what the calls say.

ghost use Rattle.std.specs.Prelude.{◌≡◌, ◌<◌, None, IfSome, false};
ghost use Rattle.context_uc_tests.specs.Standing.{IsOpen};

mod pins;
mod strips;

use crate::{Bench, Climbed, Ended, climb, deploy, image, serve};
use context_uc::{Layer, end, release};
use edge_files::MemFiles;
use hyper_calls::Ports;
use layer_model::Plan;
use machine_model::Packet;
use machine_run::{RunEnd, Steps};
use plain_space::{PlainShelf, PlainStore};
use plan_text::read_plan;
use space_api::{Given, Store};
use std::alloc::Global;
use std::marker::Brand;
use std::sync::ledger::{Blank, Ledger};
use std::test::Fail;

/// Three layers, one on another, that add 1 and 2 to a sum.
const THREE: &str = "frames = 64\nworkers = 1\nidle = 1\nlayers = 3\n\
    [[layer]]\nname = \"l0\"\nimage = \"it.elf\"\ntrigger = 65544\n\
    [[layer]]\nname = \"l1\"\nbelow = \"l0\"\ntrigger = 65544\npackets = [\"01\"]\n\
    [[layer]]\nname = \"l2\"\nbelow = \"l1\"\ntrigger = 65544\npackets = [\"02\"]\n\
    [[function]]\nname = \"sum\"\nlayer = \"l2\"\n";

/// One layer, whose run takes at most 100 instructions.
const ONE: &str = "frames = 64\nworkers = 1\nidle = 1\nlayers = 1\nprepare = 100\n\
    [[layer]]\nname = \"it\"\nimage = \"it.elf\"\ntrigger = 65556\n\
    [[function]]\nname = \"it\"\nlayer = \"it\"\n";

/// The file of the program that answers the low byte of the sum of all packets' first bytes.
const COUNT: &str = "\
    7f454c460201010000000000000000000200f30001000000000001000000000040000000000000000000\
    000000000000000000004000380002000000000000000100000005000000b00000000000000000000100\
    000000000000010000000000440000000000000000100000000000000100000000000000010000000600\
    0000f4000000000000000000020000000000000002000000000000000000000000000010000000000000\
    010000000000000037040200233004009308300073000000130504019305000493087000730000008332\
    040003430401b382620023305400130504009305100093086000730000006ff09ffc";

/// The head of a file of one segment at 0x10000, which may be read and executed, with 12 bytes in
/// the file.
const HEAD: &str = "\
    7f454c460201010000000000000000000200f30001000000000001000000000040000000000000000000\
    000000000000000000004000380001000000000000000100000005000000780000000000000000000100\
    0000000000000100000000000c0000000000000000100000000000000100000000000000";

/// Programs of three words, and how the run of their layer ends: one that jumps to itself, and
/// others that wait, halt with 5, and stop at an EBREAK.
const ENDS: [(&str, RunEnd, u64); 4] = [
    ("6f0000000000000000000000", RunEnd::Budget, 100),
    ("930830007300000000000000", RunEnd::Rest, 2),
    ("130550009308800073000000", RunEnd::Halt(5), 3),
    (
        "730010000000000000000000",
        RunEnd::Fault {
            cause: 3,
            pc: 0x1_0000,
            tval: 0x1_0000,
        },
        0,
    ),
];

/// The plan of a text over one file, which these digits spell.
fn plan_of(alloc: Global, text: &str, digits: &str) -> Option<Plan> {
    let mut files = MemFiles::new(alloc, Vec::new(alloc));
    let bytes = hex::decode(alloc, digits.as_bytes()).ok()?;
    files.add("it.elf", bytes).ok()?;
    read_plan(alloc, text.as_bytes(), &mut files).ok()
}

/// The topmost of three layers that are taken from the lowest up, each with one page that was
/// written.
fn third<'a, T: Store, L: Ledger>(
    alloc: Global,
    store: &T,
    shelf: &mut T::Shelf,
    bench: &mut Bench<L>,
    plan: &'a Plan,
) -> Option<Layer<'a, T::Frozen>>
    requires plain { T.Space.takes_frames ≡ false }
    requires starts { T.starts store.now ≡ plan.now.starts }
    ensures loose { IfSome result (λ l. T.Frozen.pin l.frozen ≡ None) }
{
    let mut below = image(alloc, store, shelf, plan, 0)?;
    let context = deploy(alloc, store, shelf, &mut below, 0)?;
    let first = climb(alloc, store, bench, context, 0)?;
    let second = climb(alloc, store, bench, first.context, 1)?;
    let third = climb(alloc, store, bench, second.context, 2)?;
    if (first.pages, second.pages, third.pages) != (1, 1, 1) {
        return None;
    }
    third.layer
}

/// Whether a context of the topmost of three layers answers 3 with the sum, 6.
fn sums<T: Store, L: Ledger>(
    alloc: Global,
    store: &T,
    shelf: &mut T::Shelf,
    bench: &mut Bench<L>,
    plan: &Plan,
) -> Option<bool>
    requires plain { T.Space.takes_frames ≡ false }
    requires starts { T.starts store.now ≡ plan.now.starts }
{
    let mut top = third(alloc, store, shelf, bench, plan)?;
    let mut context = deploy(alloc, store, shelf, &mut top, 0)?;
    let packet = Packet::new(Vec::from_slice(alloc, &[3]).ok()?)?;
    let ended = serve(alloc, bench, &mut context, Given { packet, clock: 0 })?;
    let rested = Ended {
        end: RunEnd::Rest,
        done: 17,
    };
    let answered = bench.ports.sent() == 1 && bench.ports.packet(0) == [6].as_slice();
    Some(ended == rested && answered && holds_none(store, context, top))
}

/// Whether a context and a layer give no frames back, where there are none.
fn holds_none<'a, T: Store>(
    store: &T,
    context: context_uc::Context<'a, T::Space>,
    layer: Layer<'a, T::Frozen>,
) -> bool
    requires open { IsOpen T.Space.pin context }
    requires loose { T.Frozen.pin layer.frozen ≡ None }
{
    let of_context = end(store, context);
    let of_layer = release(store, layer);
    store.count(&of_context) == 0 && store.count(&of_layer) == 0
}

/// How the run of a plan's first layer ended, where it didn't come to its trigger.
fn miss<T: Store, L: Ledger>(
    alloc: Global,
    store: &T,
    shelf: &mut T::Shelf,
    bench: &mut Bench<L>,
    plan: &Plan,
) -> Option<Ended>
    requires plain { T.Space.takes_frames ≡ false }
    requires starts { T.starts store.now ≡ plan.now.starts }
{
    let mut below = image(alloc, store, shelf, plan, 0)?;
    let context = deploy(alloc, store, shelf, &mut below, 0)?;
    let missed = climb(alloc, store, bench, context, 0)?;
    match missed.layer {
        Some(_) => None,
        None => Some(missed.ended),
    }
}

/// Whether each program's layer ends as it should.
fn all_end<L: Ledger>(alloc: Global, bench: &mut Bench<L>) -> Option<bool> {
    for (words, end, done) in ENDS {
        let digits = format!(in alloc; "{HEAD}{words}").ok()?;
        let plan = plan_of(alloc, ONE, digits.as_str())?;
        let store = PlainStore::open(plan.starts()).ok()?;
        let ended = miss(alloc, &store, &mut PlainShelf::new(64), bench, &plan)?;
        if ended != (Ended { end, done }) {
            return Some(false);
        }
    }
    Some(true)
}

/// Whether contexts of three layers answer as they should, also where they are stripped and pinned
/// in between.
fn three_sum<L: Ledger>(alloc: Global, bench: &mut Bench<L>) -> Option<(bool, bool, bool)> {
    let plan = plan_of(alloc, THREE, COUNT)?;
    let store = PlainStore::open(plan.starts()).ok()?;
    let mut shelf = PlainShelf::new(64);
    let plainly = sums(alloc, &store, &mut shelf, bench, &plan)?;
    let stripped = strips::strips_between(alloc, &store, &mut shelf, bench, &plan)?;
    let pinned = pins::pins_between(alloc, &store, &mut shelf, bench, &plan)?;
    Some((plainly, stripped, pinned))
}

/// What both came to, over a ledger of their own.
fn both_by<L: Ledger>(alloc: Global, blank: Blank) -> Option<((bool, bool, bool), bool)>
    requires name { blank.name ≡ L.name }
    requires parts { blank.parts ≡ L.parts }
    requires some { 0 < blank.parts }
{
    let mut bench = Bench {
        ports: Ports::open(alloc, 0).ok()?,
        steps: Steps::<L>::new(blank),
    };
    let sums = three_sum(alloc, &mut bench)?;
    Some((sums, all_end(alloc, &mut bench)?))
}

/// What both came to.
fn both(alloc: Global) -> Option<((bool, bool, bool), bool)> {
    both_by::<Brand>(alloc, Blank::new(1))
}

#[test]
fn layers_are_taken_or_missed(rt: HostRuntime) -> Result<(), Fail> {
    assert_eq!(rt; both(rt.alloc()), Some(((true, true, true), true)));
    Ok(())
}
