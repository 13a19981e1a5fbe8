//! The requests of an example, answered.

ghost use Rattle.std.specs.Prelude.{◌≡◌, ◌<◌, None, IfSome, false};
ghost use Rattle.context_uc_tests.specs.Standing.{IsOpen};

use crate::climbing::climb_all;
use crate::problem::Problem;
use crate::requests::{Request, requests_of};
use context_uc::{Context, end, release};
use context_uc_tests::{Bench, deploy, image, serve};
use edge_files::Files;
use hyper_calls::Ports;
use layer_model::Plan;
use machine_run::{RunEnd, Steps};
use plain_space::{PlainShelf, PlainStore};
use plan_text::read_plan;
use space_api::{Given, Parked, Space, Store};
use std::alloc::{AllocError, Global};
use std::marker::Brand;
use std::str::from_utf8;
use std::sync::ledger::{Blank, Ledger};

/// The most bytes of a plan's text, or of an example's requests.
const FILE_LIMIT: u64 = 1_048_576;

/// What runs and stores need, where contexts of one function are made and run.
#[derive(Drop)]
struct Place<'s, T: Store, L: Ledger> {
    store: &'s T,
    shelf: T::Shelf,
    bench: Bench<L>,
}

/// The end and the one packet of a reply, as expected lines spell them. Of a run that doesn't
/// rest it is how the run ended, and of one with more packets or none how many there are.
fn reply_line(alloc: Global, end: RunEnd, ports: &Ports) -> Result<String, AllocError> {
    let RunEnd::Rest = end else {
        return format!(in alloc; "{end:?}");
    };
    let count = ports.sent();
    if count != 1 {
        return format!(in alloc; "ok with {count} packets");
    }
    let digits = hex::encode(alloc, ports.packet(0))?;
    if digits.is_empty() {
        return String::from_str(alloc, "ok -");
    }
    format!(in alloc; "ok {digits}")
}

/// Runs a context on a request, and notes its reply. None is for want of memory, or where the
/// context isn't between runs.
fn answer_one<'a, S: Space, L: Ledger>(
    alloc: Global,
    bench: &mut Bench<L>,
    context: &mut Context<'a, S>,
    request: &mut Request,
) -> Option<()>
    requires open { IsOpen S.pin context.old }
    ensures open { IsOpen S.pin context.new }
{
    let packet = request.packet.copy(alloc).ok()?;
    let clock = context.plan().numbers().clock;
    let ended = serve(alloc, bench, context, Given { packet, clock })?;
    let reply = reply_line(alloc, ended.end, &bench.ports).ok()?;
    request.replies.push(reply).ok()
}

/// Runs a context on each request of its function, in order.
fn answer_all<'a, S: Space, L: Ledger>(
    alloc: Global,
    bench: &mut Bench<L>,
    context: &mut Context<'a, S>,
    requests: &mut [Request],
) -> Option<()>
    requires open { IsOpen S.pin context.old }
    ensures open { IsOpen S.pin context.new }
{
    'requests: for request in requests.iter_mut() {
        if request.function == context.function() {
            answer_one(alloc, bench, context, request)?;
        }
    }
    Some(())
}

/// Has a context answer the requests of its function, and ends it.
fn answer_and_end<'a, T: Store, L: Ledger>(
    alloc: Global,
    place: &mut Place<'_, T, L>,
    context: Context<'a, T::Space>,
    requests: &mut [Request],
) -> Option<()>
    requires open { IsOpen T.Space.pin context }
    ensures same { place.new.store ≡ place.old.store }
{
    let mut context = context;
    answer_all(alloc, &mut place.bench, &mut context, requests)?;
    let spares = end(place.store, context);
    place.store.give_back(&mut place.shelf, spares);
    Some(())
}

/// Has the requests of a function answered by a context that comes up from the image, and then by
/// one that is deployed from the topmost layer.
fn answer_twice<T: Store, L: Ledger>(
    alloc: Global,
    place: &mut Place<'_, T, L>,
    plan: &Plan,
    function: u16,
    requests: &mut [Request],
) -> Option<()>
    requires plain { T.Space.takes_frames ≡ false }
    requires starts { T.starts place.old.store.now ≡ plan.now.starts }
{
    if usize::from(function) >= plan.functions().len() {
        return None;
    }
    let layer = plan.functions()[usize::from(function)].layer;
    let start = plan.layers().get(usize::from(layer))?.start;
    let mut below = image(alloc, place.store, &mut place.shelf, plan, start)?;
    let context = deploy(alloc, place.store, &mut place.shelf, &mut below, function)?;
    let stack = plan.stack(function);
    let climbed = climb_all(alloc, place.store, &mut place.bench, context, stack)?;
    answer_and_end(alloc, place, climbed.context, requests)?;
    let mut top = climbed.layer?;
    let context = deploy(alloc, place.store, &mut place.shelf, &mut top, function)?;
    answer_and_end(alloc, place, context, requests)?;
    let spares = release(place.store, top);
    place.store.give_back(&mut place.shelf, spares);
    Some(())
}

/// Has the requests of a function answered over copied pages, and over a ledger of its own.
fn answer_function<L: Ledger>(
    alloc: Global,
    plan: &Plan,
    function: u16,
    requests: &mut [Request],
    blank: Blank,
) -> Option<()>
    requires name { blank.name ≡ L.name }
    requires parts { blank.parts ≡ L.parts }
    requires some { 0 < blank.parts }
{
    let store = PlainStore::open(plan.starts()).ok()?;
    let mut place = Place {
        store: &store,
        shelf: PlainShelf::new(0),
        bench: Bench {
            ports: Ports::open(alloc, 0).ok()?,
            steps: Steps::<L>::new(blank),
        },
    };
    answer_twice(alloc, &mut place, plan, function, requests)
}

/// The requests of an example with their replies. Its plan and its requests stand in the files
/// of its name that end in `.toml` and `.txt`.
pub fn answer_example<F: Files>(
    alloc: Global,
    files: &mut F,
    name: &str,
) -> Result<Vec<Request>, Problem> {
    let plan_name = format!(in alloc; "{name}.toml")?;
    let text = files.read_file(alloc, plan_name.as_str(), FILE_LIMIT)?;
    let Ok(plan) = read_plan(alloc, &text, files) else {
        return Err(Problem::Plan);
    };
    let lines_name = format!(in alloc; "{name}.txt")?;
    let lines = files.read_file(alloc, lines_name.as_str(), FILE_LIMIT)?;
    let mut requests = requests_of(
        alloc,
        &plan,
        from_utf8(&lines).map_err(|_| Problem::Line(0))?,
    )?;
    for number in 0..plan.functions().len() {
        let function = u16::try_from(number).map_err(|_| Problem::Unanswered)?;
        answer_function::<Brand>(alloc, &plan, function, &mut requests, Blank::new(1)).ok_or(
            Problem::Unanswered,
        )?;
    }
    Ok(requests)
}
