//! Worked layers and requests, by hand from the programs' words, each run whole and cut into parts.

ghost use Rattle.std.specs.Prelude.{◌≡◌, ◌<◌, None, IfSome, false};
ghost use Rattle.context_runs_tests.specs.Climbing.{IsUp};

mod table;

use crate::{Arrived, Bench, Ended, climb_all, deploy, serve};
use context_runs::RunReply;
use context_uc::{Context, Layer};
use edge_files::MemFiles;
use hyper_calls::Ports;
use journal_model::End;
use layer_model::Plan;
use machine_model::{Packet, Stop};
use machine_run::Steps;
use plain_space::{PlainShelf, PlainStore};
use plan_text::read_plan;
use space_api::{Given, Space, Store};
use std::alloc::Global;
use std::marker::Brand;
use std::sync::ledger::{Blank, Ledger};
use std::test::Fail;
use table::{COUNT, HEAD, Limits, ROWS, Row, THREE, Told};

/// How runs are cut.
const PAUSES: [Option<u64>; 3] = [None, Some(1), Some(32)];

/// The plan of a row: one layer at the trigger, on the program of these words.
fn plan_of(alloc: Global, words: &str, limits: Limits) -> Option<Plan> {
    let Limits {
        trigger,
        prepare,
        budget,
    } = limits;
    let text = format!(in alloc;
        "frames = 64\nworkers = 1\nidle = 1\nlayers = 1\nprepare = {prepare}\n\
        budget = {budget}\n[[layer]]\nname = \"it\"\nimage = \"it.elf\"\ntrigger = {trigger}\n\
        [[function]]\nname = \"it\"\nlayer = \"it\"\n"
    )
    .ok()?;
    let digits = format!(in alloc; "{HEAD}{words}").ok()?;
    plan_over(alloc, text.as_str(), digits.as_str())
}

/// The image of the plan's first start.
fn image<'a, T: Store>(
    alloc: Global,
    store: &T,
    shelf: &mut T::Shelf,
    plan: &'a Plan,
) -> Option<Layer<'a, T::Frozen>>
    requires plain { T.Space.takes_frames ≡ false }
    requires starts { T.starts store.now ≡ plan.now.starts }
    ensures loose { IfSome result (λ l. T.Frozen.pin l.frozen ≡ None) }
{
    if plan.starts().is_empty() {
        return None;
    }
    let frozen = store.open_image(alloc, shelf, 0).ok()?;
    Some(Layer::image(plan, 0, frozen))
}

/// How many parts of a run pause: each that ends before the stop is found. A fault is found only
/// where its instruction is looked at, and every other stop where the instruction before it is
/// counted.
fn pauses_of(ended: Ended, pause: Option<u64>) -> u64 {
    let Some(n) = pause else {
        return 0;
    };
    let found = match ended.stop {
        Stop::Exception { .. } => ended.done,
        Stop::Rest | Stop::Halt { .. } | Stop::Trigger | Stop::Budget => {
            ended.done.saturating_sub(1)
        }
    };
    found.checked_div(n).unwrap_or(0)
}

/// How a request was answered, where its run was cut as it should be.
fn told(reply: &RunReply, ended: Ended, pause: Option<u64>) -> Option<Told> {
    if u64::from(ended.pauses) != pauses_of(ended, pause) || reply.steps != ended.done {
        return None;
    }
    Some(said(reply))
}

/// What a context answers to an empty packet. None is for want of memory, or where the context
/// isn't between runs.
fn answer<'a, S: Space, L: Ledger>(
    alloc: Global,
    bench: &mut Bench<L>,
    context: &mut Context<'a, S>,
) -> Option<Told>
    requires plain { S.takes_frames ≡ false }
    requires ready { IsUp S.pin context.old }
    ensures ready { IfSome result (λ _. IsUp S.pin context.new) }
{
    let packet = Packet::new(Vec::new(alloc))?;
    let given = Given { packet, clock: 7 };
    let (reply, ended) = serve(alloc, bench, context, given)?;
    told(&reply, ended, bench.pause)
}

/// The words with zeros behind them, 96 digits.
fn padded(alloc: Global, words: &str) -> Option<String> {
    format!(in alloc; "{words:0<96}").ok()
}

/// What two requests are answered by a context that stands at its function's layer: the second one
/// only where the first one rested.
fn both_told<'a, S: Space, L: Ledger>(
    alloc: Global,
    bench: &mut Bench<L>,
    context: &mut Context<'a, S>,
) -> Option<(Told, Option<Told>)>
    requires plain { S.takes_frames ≡ false }
    requires ready { IsUp S.pin context.old }
{
    let first = answer(alloc, bench, context)?;
    if first.end != End::Ok {
        return Some((first, None));
    }
    let second = answer(alloc, bench, context)?;
    Some((first, Some(second)))
}

/// What a reply says of its end and its count.
fn said(reply: &RunReply) -> Told {
    Told {
        end: reply.end,
        steps: reply.steps,
    }
}

/// What comes of a plan of one layer.
fn outcome<T: Store, L: Ledger>(
    alloc: Global,
    store: &T,
    shelf: &mut T::Shelf,
    bench: &mut Bench<L>,
    plan: &Plan,
) -> Option<(Ended, Told, Option<Told>)>
    requires plain { T.Space.takes_frames ≡ false }
    requires starts { T.starts store.now ≡ plan.now.starts }
{
    let mut below = image(alloc, store, shelf, plan)?;
    let context = deploy(alloc, store, shelf, &mut below)?;
    let Arrived {
        mut context,
        last,
        missed,
        layers: _,
    } = climb_all(alloc, store, bench, context)?;
    let last = last?;
    if let Some(reply) = missed {
        return Some((last, said(&reply), None));
    }
    let (first, second) = both_told(alloc, bench, &mut context)?;
    Some((last, first, second))
}

/// Whether a row holds, where runs are cut so.
fn row_holds<L: Ledger>(alloc: Global, bench: &mut Bench<L>, row: &Row) -> Option<bool> {
    let words = padded(alloc, row.words)?;
    let plan = plan_of(alloc, words.as_str(), row.limits)?;
    let store = PlainStore::open(plan.starts()).ok()?;
    let mut shelf = PlainShelf::new(64);
    let (last, first, second) = outcome(alloc, &store, &mut shelf, bench, &plan)?;
    let cut = u64::from(last.pauses) == pauses_of(last, bench.pause);
    let layer = (last.stop, last.done) == row.layer;
    Some(cut && layer && first == row.first && second == row.second)
}

/// The number of the first row that doesn't hold, where runs are cut so, or how many there are.
fn rows_hold<L: Ledger>(alloc: Global, bench: &mut Bench<L>) -> usize {
    for at in 0..ROWS.len() {
        if row_holds(alloc, bench, &ROWS[at]) != Some(true) {
            return at;
        }
    }
    ROWS.len()
}

/// The same over a ledger of its own.
fn rows_by<L: Ledger>(alloc: Global, blank: Blank, pause: Option<u64>) -> Option<usize>
    requires name { blank.name ≡ L.name }
    requires parts { blank.parts ≡ L.parts }
    requires some { 0 < blank.parts }
{
    let mut bench = Bench {
        ports: Ports::open(alloc, 0).ok()?,
        steps: Steps::<L>::new(blank),
        pause,
    };
    Some(rows_hold(alloc, &mut bench))
}

/// How many rows hold from the first on, where runs are cut so.
fn rows(alloc: Global, pause: Option<u64>) -> Option<usize> {
    rows_by::<Brand>(alloc, Blank::new(1), pause)
}

/// The plan of a text over one file, which these digits spell.
fn plan_over(alloc: Global, text: &str, digits: &str) -> Option<Plan> {
    let mut files = MemFiles::new(alloc, Vec::new(alloc));
    let bytes = hex::decode(alloc, digits.as_bytes()).ok()?;
    files.add("it.elf", bytes).ok()?;
    read_plan(alloc, text.as_bytes(), &mut files).ok()
}

/// Whether a reply is the one packet with a sum of 6, after 17 instructions.
fn is_six(reply: &RunReply) -> bool {
    let sent = reply.net.as_slice();
    let six = sent.len() == 1 && sent[0].bytes() == [6].as_slice();
    six && reply.end == End::Ok && reply.steps == 17 && reply.console.bytes().is_empty()
}

/// How many layers a context climbed, and whether it then answers 3 with the sum.
fn climbs<T: Store, L: Ledger>(
    alloc: Global,
    store: &T,
    shelf: &mut T::Shelf,
    bench: &mut Bench<L>,
    plan: &Plan,
) -> Option<(u32, bool)>
    requires plain { T.Space.takes_frames ≡ false }
    requires starts { T.starts store.now ≡ plan.now.starts }
{
    let mut below = image(alloc, store, shelf, plan)?;
    let context = deploy(alloc, store, shelf, &mut below)?;
    let Arrived {
        mut context,
        layers,
        missed,
        last: _,
    } = climb_all(alloc, store, bench, context)?;
    if missed.is_some() {
        return None;
    }
    let packet = Packet::new(Vec::from_slice(alloc, &[3]).ok()?)?;
    let given = Given { packet, clock: 0 };
    let (reply, _ended) = serve(alloc, bench, &mut context, given)?;
    Some((layers, is_six(&reply)))
}

/// The same of the three layers, over a ledger of their own.
fn three_by<L: Ledger>(alloc: Global, blank: Blank, pause: Option<u64>) -> Option<(u32, bool)>
    requires name { blank.name ≡ L.name }
    requires parts { blank.parts ≡ L.parts }
    requires some { 0 < blank.parts }
{
    let mut bench = Bench {
        ports: Ports::open(alloc, 0).ok()?,
        steps: Steps::<L>::new(blank),
        pause,
    };
    let plan = plan_over(alloc, THREE, COUNT)?;
    let store = PlainStore::open(plan.starts()).ok()?;
    climbs(alloc, &store, &mut PlainShelf::new(64), &mut bench, &plan)
}

/// The same, where runs are cut so.
fn three(alloc: Global, pause: Option<u64>) -> Option<(u32, bool)> {
    three_by::<Brand>(alloc, Blank::new(1), pause)
}

#[test]
fn three_layers_are_climbed(rt: HostRuntime) -> Result<(), Fail> {
    assert_eq!(rt; three(rt.alloc(), Some(1)), Some((3, true)));
    Ok(())
}

#[test]
fn runs_end_as_worked_out(rt: HostRuntime) -> Result<(), Fail> {
    for pause in PAUSES {
        assert_eq!(rt; rows(rt.alloc(), pause), Some(ROWS.len()));
    }
    Ok(())
}
