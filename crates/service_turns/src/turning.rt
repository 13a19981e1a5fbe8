//! A turn of a service.

ghost use Rattle.std.specs.Prelude.{◌≡◌, false, true, IfOk, OnErr};
ghost use Rattle.deployer.specs.Grounds.{AreGrounds, IsSizedBy};
ghost use Rattle.request_service.specs.Turns.{TurnsTo};
ghost use Rattle.request_service.specs.UnderWay.{IsUnderWay};
ghost use Rattle.request_service.specs.declared.service.Work.TheVariants as work;
ghost use Rattle.service_requests.specs.Requesting.{MayEnd};
ghost use Rattle.service_turns.specs.Running.{RunsLayer, RunsRequest, TurnsOver};

use book_core::{Book, Grounds};
use context_runs::{LayerRun, PartEnd, RequestRun};
use context_uc::{Context, Layer};
use hyper_calls::Ports;
use layer_model::Plan;
use machine_model::{Memory, Stop};
use machine_run::Steps;
use request_service::{InRun, Service, Turned, Work};
use service_ends::lose_context;
use service_layers::end_layer;
use service_requests::end_request;
use service_runs::{SetOut, set_out};
use space_api::Store;
use std::alloc::Global;
use std::sync::ledger::Ledger;

/// A service in the run of a layer goes on to that run's end, or for so many instructions, and
/// does what comes of it. The only error is want of memory, and stops the book.
fn turn_in_layer<'a, T: Store, G: Grounds<Context<'a, T::Space>, Layer<'a, T::Frozen>>, L: Ledger>(
    alloc: Global,
    store: &T,
    book: &mut Book<Context<'a, T::Space>, Layer<'a, T::Frozen>, T::Shelf, G>,
    at: InRun<Context<'a, T::Space>, LayerRun>,
    ports: &mut Ports,
    pause: Option<u64>,
    steps: &mut Steps<L>,
) -> Result<Turned<Context<'a, T::Space>, T::Space>, Memory>
    requires copied { T.Space.takes_frames ≡ false }
    requires runs { RunsLayer (record {
      flat = T.Space.flat;
      spares = T.Space.spares;
      finished = T.Space.finished;
      pin = T.Space.pin;
    }) T.Frozen.flat G.is_context G.is_layer at ports.old book.old }
    ensures turns { IfOk result (λ turned. TurnsTo at.entry.context.plan (record {
      flat = T.Space.flat;
      spares = T.Space.spares;
      finished = T.Space.finished;
      pin = T.Space.pin;
    }) pause at.entry.origin.i (work.Layer at.entry.context at.entry.run) steps.old turned
        ports.new steps.new book.old book.new) }
    ensures stopped { OnErr result (book.new.stopped ≡ true) }
{
    book.is_sound();
    let InRun {
        origin,
        mut context,
        mut run,
    } = at;
    match run.go(&mut context, ports, pause, steps) {
        PartEnd::Stopped(stop) => {
            let at = InRun {
                origin,
                context,
                run,
            };
            end_layer(alloc, store, book, at, stop)
        }
        PartEnd::Paused => Ok(Turned::Went(Service {
            origin,
            work: Work::Layer(context, run),
        })),
        PartEnd::Memory => {
            let answer = lose_context(alloc, store, book, origin, context)?;
            Ok(Turned::Answered(answer))
        }
    }
}

/// What comes of the run of a request that stopped so: the turn closes the request; a part of
/// `turn_in_request` by itself. The only error is want of memory, and stops the book.
fn answer_request<'a, T: Store, G: Grounds<Context<'a, T::Space>, Layer<'a, T::Frozen>>>(
    alloc: Global,
    store: &T,
    book: &mut Book<Context<'a, T::Space>, Layer<'a, T::Frozen>, T::Shelf, G>,
    at: InRun<Context<'a, T::Space>, RequestRun>,
    ports: &Ports,
    stop: Stop,
) -> Result<Turned<Context<'a, T::Space>, T::Space>, Memory>
    requires copied { T.Space.takes_frames ≡ false }
    requires may { MayEnd (record {
      flat = T.Space.flat;
      spares = T.Space.spares;
      finished = T.Space.finished;
      pin = T.Space.pin;
    }) T.Frozen.flat G.is_context G.is_layer at ports.now stop book.old }
    ensures over { IfOk result (λ turned. TurnsOver at.entry.context.plan at.entry.origin.i
        at.entry.run.done turned book.old book.new) }
    ensures stopped { OnErr result (book.new.stopped ≡ true) }
{
    let answer = end_request(alloc, store, book, at, ports, stop)?;
    Ok(Turned::Answered(answer))
}

/// A service in the run of its request goes on to that run's end, or for so many instructions, and
/// does what comes of it. The only error is want of memory, and stops the book.
fn turn_in_request<
    'a,
    T: Store,
    G: Grounds<Context<'a, T::Space>, Layer<'a, T::Frozen>>,
    L: Ledger,
>(
    alloc: Global,
    store: &T,
    book: &mut Book<Context<'a, T::Space>, Layer<'a, T::Frozen>, T::Shelf, G>,
    at: InRun<Context<'a, T::Space>, RequestRun>,
    ports: &mut Ports,
    pause: Option<u64>,
    steps: &mut Steps<L>,
) -> Result<Turned<Context<'a, T::Space>, T::Space>, Memory>
    requires copied { T.Space.takes_frames ≡ false }
    requires runs { RunsRequest (record {
      flat = T.Space.flat;
      spares = T.Space.spares;
      finished = T.Space.finished;
      pin = T.Space.pin;
    }) T.Frozen.flat G.is_context G.is_layer at ports.old book.old }
    ensures turns { IfOk result (λ turned. TurnsTo at.entry.context.plan (record {
      flat = T.Space.flat;
      spares = T.Space.spares;
      finished = T.Space.finished;
      pin = T.Space.pin;
    }) pause at.entry.origin.i (work.Request at.entry.context at.entry.run) steps.old turned
        ports.new steps.new book.old book.new) }
    ensures stopped { OnErr result (book.new.stopped ≡ true) }
{
    book.is_sound();
    let InRun {
        origin,
        mut context,
        mut run,
    } = at;
    match run.go(&mut context, ports, pause, steps) {
        PartEnd::Stopped(stop) => {
            let at = InRun {
                origin,
                context,
                run,
            };
            answer_request(alloc, store, book, at, ports, stop)
        }
        PartEnd::Paused => Ok(Turned::Went(Service {
            origin,
            work: Work::Request(context, run),
        })),
        PartEnd::Memory => {
            let answer = lose_context(alloc, store, book, origin, context)?;
            Ok(Turned::Answered(answer))
        }
    }
}

/// A turn of a service: it goes on to the end of the run that it is in or sets out on, or for so
/// many instructions of that, and does what comes of the end. It ticks each
/// instruction that it runs. The only error is want of memory, and stops the book.
pub fn go_on<'a, T: Store, G: Grounds<Context<'a, T::Space>, Layer<'a, T::Frozen>>, L: Ledger>(
    alloc: Global,
    plan: &'a Plan,
    store: &T,
    book: &mut Book<Context<'a, T::Space>, Layer<'a, T::Frozen>, T::Shelf, G>,
    service: Service<Context<'a, T::Space>, T::Space>,
    ports: &mut Ports,
    pause: Option<u64>,
    steps: &mut Steps<L>,
) -> Result<Turned<Context<'a, T::Space>, T::Space>, Memory>
    requires copied { T.Space.takes_frames ≡ false }
    requires sizes { IsSizedBy plan.now book.old.sizes }
    requires grounds { AreGrounds plan.now T.Frozen.flat G.is_context G.is_layer }
    requires under_way { IsUnderWay plan.now (record {
      flat = T.Space.flat;
      spares = T.Space.spares;
      finished = T.Space.finished;
      pin = T.Space.pin;
    }) ports.old service book.old }
    ensures turns { IfOk result (λ turned. TurnsTo plan.now (record {
      flat = T.Space.flat;
      spares = T.Space.spares;
      finished = T.Space.finished;
      pin = T.Space.pin;
    }) pause service.entry.origin.i service.entry.work steps.old turned ports.new steps.new
        book.old book.new) }
    ensures stopped { OnErr result (book.new.stopped ≡ true) }
{
    let out = set_out(alloc, plan, store, book, service, ports)?;
    match out {
        SetOut::InLayer(at) => turn_in_layer(alloc, store, book, at, ports, pause, steps),
        SetOut::InRequest(at) => turn_in_request(alloc, store, book, at, ports, pause, steps),
        SetOut::Lost(answer) => Ok(Turned::Answered(answer)),
    }
}
