//! A context that is to begin, or is between runs, sets out on its next run.

ghost use Rattle.std.specs.Prelude.{◌≡◌, ◌<◌, false, true, IfOk, IsSome, OnErr, Some, length};
ghost use Rattle.context_runs.specs.OfLayers.{IsAbove, IsOnStack, IsTop};
ghost use Rattle.context_runs.specs.OfRequests.{IsRequestUnderWay, MayServe};
ghost use Rattle.context_uc.specs.Views.{level_of};
ghost use Rattle.deployer.specs.Hosting.{Hosts};
ghost use Rattle.request_service.specs.UnderWay.{IsAt, IsKnownAs, IsToBegin, counted_in, level_in};
ghost use Rattle.service_model.specs.Going.{given_in};
ghost use Rattle.service_runs.specs.SettingOut.{SetsOut};

use book_core::{Book, Deployed, Grounds};
use book_log::Started;
use context_runs::{LayerRun, RequestRun, Spot, begin_at, begin_layer, begin_request, next_layer};
use context_uc::{Context, Layer};
use hyper_calls::Ports;
use journal_model::Answer;
use layer_model::Plan;
use machine_model::Memory;
use request_service::{InRun, Origin, Service, Work};
use service_ends::{give_up, lose_context};
use space_api::{Given, Space, Store};
use std::alloc::Global;

/// What a service came to that set out.
#[derive(Drop)]
pub enum SetOut<C> {
    /// It is in the run of the layer above its context.
    InLayer(InRun<C, LayerRun>),
    /// It is in the run of its request.
    InRequest(InRun<C, RequestRun>),
    /// It found no memory, and its request is closed with this line.
    Lost(Answer),
}

/// A space that was deployed, and the function of whose context it is to be.
#[derive(Drop)]
struct Begun<S> {
    origin: Origin,
    function: u16,
    deployed: Deployed<S>,
}

/// The packet and the clock of request i, of those that were started. The only error is want of
/// memory.
fn own_given(alloc: Global, started: &[Started], i: u32) -> Result<Given, Memory>
    requires there { IsSome (given_in started.now i) }
    ensures { IfOk result (λ given. given_in started.now i ≡ Some given) }
{
    started[i as usize - 1].given.copy(alloc)
}

/// Begins the run of request i on a context that stands at its function's layer, with what the
/// request was given. The only error is want of memory.
fn begin_own<'a, S: Space>(
    alloc: Global,
    context: &Context<'a, S>,
    ports: &mut Ports,
    started: &[Started],
    i: u32,
) -> Result<RequestRun, Memory>
    requires still { context.now.still ≡ true }
    requires may { MayServe context.now }
    requires there { IsSome (given_in started.now i) }
    ensures own { IfOk result (λ run. given_in started.now i ≡ Some run.given) }
    ensures none { IfOk result (λ run. run.done ≡ 0) }
    ensures under_way { IfOk result (λ run.
        IsRequestUnderWay context.now (S.flat context.now.space) ports.new run) }
{
    let given = own_given(alloc, started, i)?;
    begin_request(alloc, context, ports, given)
}

/// A context at its function's layer sets out on the run of its request. The only error is want of
/// memory, and stops the book.
fn set_out_request<'a, T: Store, G: Grounds<Context<'a, T::Space>, Layer<'a, T::Frozen>>>(
    alloc: Global,
    store: &T,
    book: &mut Book<Context<'a, T::Space>, Layer<'a, T::Frozen>, T::Shelf, G>,
    origin: Origin,
    context: Context<'a, T::Space>,
    ports: &mut Ports,
) -> Result<SetOut<Context<'a, T::Space>>, Memory>
    requires copied { T.Space.takes_frames ≡ false }
    requires root { book.old.sizes.root ≡ 0 }
    requires known { IsKnownAs origin book.old.state }
    requires hosts { Hosts context.plan (record {
      flat = T.Space.flat;
      spares = T.Space.spares;
      finished = T.Space.finished;
      pin = T.Space.pin;
    }) origin.i context book.old }
    requires top { IsTop context.plan context.function context.layer }
    ensures out { IfOk result (λ out. SetsOut context.entry.plan (record {
      flat = T.Space.flat;
      spares = T.Space.spares;
      finished = T.Space.finished;
      pin = T.Space.pin;
    }) origin.i 0 (level_of context.entry.layer) out ports.new book.old book.new) }
    ensures stopped { OnErr result (book.new.stopped ≡ true) }
{
    book.is_sound();
    match begin_own(alloc, &context, ports, book.started(), origin.i) {
        Ok(run) => Ok(SetOut::InRequest(InRun {
            origin,
            context,
            run,
        })),
        Err(Memory) => {
            let answer = lose_context(alloc, store, book, origin, context)?;
            Ok(SetOut::Lost(answer))
        }
    }
}

/// A context sets out on the run of the layer above it, which has this number. The only error is
/// want of memory, and stops the book.
fn set_out_layer<'a, T: Store, G: Grounds<Context<'a, T::Space>, Layer<'a, T::Frozen>>>(
    alloc: Global,
    store: &T,
    book: &mut Book<Context<'a, T::Space>, Layer<'a, T::Frozen>, T::Shelf, G>,
    at: InRun<Context<'a, T::Space>, u16>,
    ports: &mut Ports,
) -> Result<SetOut<Context<'a, T::Space>>, Memory>
    requires copied { T.Space.takes_frames ≡ false }
    requires root { book.old.sizes.root ≡ 0 }
    requires known { IsKnownAs at.origin book.old.state }
    requires hosts { Hosts at.context.plan (record {
      flat = T.Space.flat;
      spares = T.Space.spares;
      finished = T.Space.finished;
      pin = T.Space.pin;
    }) at.origin.i at.context book.old }
    requires above { IsAbove at.context at.run }
    requires on_way { IsOnStack at.context.plan at.context.function (Some at.run) }
    ensures out { IfOk result (λ out. SetsOut at.entry.context.plan (record {
      flat = T.Space.flat;
      spares = T.Space.spares;
      finished = T.Space.finished;
      pin = T.Space.pin;
    }) at.entry.origin.i 0 (level_of at.entry.context.layer) out ports.new book.old book.new) }
    ensures stopped { OnErr result (book.new.stopped ≡ true) }
{
    book.is_sound();
    let InRun {
        origin,
        context,
        run,
    } = at;
    match begin_layer(alloc, &context, ports, run) {
        Ok(run) => Ok(SetOut::InLayer(InRun {
            origin,
            context,
            run,
        })),
        Err(Memory) => {
            let answer = lose_context(alloc, store, book, origin, context)?;
            Ok(SetOut::Lost(answer))
        }
    }
}

/// A context that is between runs sets out on its next one: that of the layer above it, or that of
/// its request. The only error is want of memory, and stops the book.
fn set_out_context<'a, T: Store, G: Grounds<Context<'a, T::Space>, Layer<'a, T::Frozen>>>(
    alloc: Global,
    store: &T,
    book: &mut Book<Context<'a, T::Space>, Layer<'a, T::Frozen>, T::Shelf, G>,
    origin: Origin,
    context: Context<'a, T::Space>,
    ports: &mut Ports,
) -> Result<SetOut<Context<'a, T::Space>>, Memory>
    requires copied { T.Space.takes_frames ≡ false }
    requires root { book.old.sizes.root ≡ 0 }
    requires known { IsKnownAs origin book.old.state }
    requires hosts { Hosts context.plan (record {
      flat = T.Space.flat;
      spares = T.Space.spares;
      finished = T.Space.finished;
      pin = T.Space.pin;
    }) origin.i context book.old }
    ensures out { IfOk result (λ out. SetsOut context.entry.plan (record {
      flat = T.Space.flat;
      spares = T.Space.spares;
      finished = T.Space.finished;
      pin = T.Space.pin;
    }) origin.i 0 (level_of context.entry.layer) out ports.new book.old book.new) }
    ensures stopped { OnErr result (book.new.stopped ≡ true) }
{
    match next_layer(&context) {
        Some(run) => {
            let at = InRun {
                origin,
                context,
                run,
            };
            set_out_layer(alloc, store, book, at, ports)
        }
        None => set_out_request(alloc, store, book, origin, context, ports),
    }
}

/// A context begins in a space that was deployed for it, and sets out. The only error is want of
/// memory, and stops the book.
fn set_out_new<'a, T: Store, G: Grounds<Context<'a, T::Space>, Layer<'a, T::Frozen>>>(
    alloc: Global,
    plan: &'a Plan,
    store: &T,
    book: &mut Book<Context<'a, T::Space>, Layer<'a, T::Frozen>, T::Shelf, G>,
    begun: Begun<T::Space>,
    ports: &mut Ports,
) -> Result<SetOut<Context<'a, T::Space>>, Memory>
    requires copied { T.Space.takes_frames ≡ false }
    requires root { book.old.sizes.root ≡ 0 }
    requires known { IsKnownAs begun.origin book.old.state }
    requires to_begin { IsToBegin plan.now (record {
      flat = T.Space.flat;
      spares = T.Space.spares;
      finished = T.Space.finished;
      pin = T.Space.pin;
    }) begun.origin.i begun.function begun.deployed book.old }
    ensures out { IfOk result (λ out. SetsOut plan.now (record {
      flat = T.Space.flat;
      spares = T.Space.spares;
      finished = T.Space.finished;
      pin = T.Space.pin;
    }) begun.origin.i 0 (level_of begun.deployed.from) out ports.new book.old book.new) }
    ensures stopped { OnErr result (book.new.stopped ≡ true) }
{
    book.is_sound();
    plan.is_sound();
    let Begun {
        origin,
        function,
        deployed,
    } = begun;
    let spot = Spot {
        context: deployed.context,
        function,
        place: deployed.from,
        hart: deployed.hart,
    };
    match begin_at(alloc, store, plan, spot, deployed.space) {
        Ok(context) => set_out_context(alloc, store, book, origin, context, ports),
        Err(space) => {
            let spares = store.release_space(space);
            let answer = give_up(alloc, store, book, origin, spares)?;
            Ok(SetOut::Lost(answer))
        }
    }
}

/// A service sets out on its next run, where it isn't in one. The only error is want of memory, and
/// stops the book.
pub fn set_out<'a, T: Store, G: Grounds<Context<'a, T::Space>, Layer<'a, T::Frozen>>>(
    alloc: Global,
    plan: &'a Plan,
    store: &T,
    book: &mut Book<Context<'a, T::Space>, Layer<'a, T::Frozen>, T::Shelf, G>,
    service: Service<Context<'a, T::Space>, T::Space>,
    ports: &mut Ports,
) -> Result<SetOut<Context<'a, T::Space>>, Memory>
    requires copied { T.Space.takes_frames ≡ false }
    requires root { book.old.sizes.root ≡ 0 }
    requires known { IsKnownAs service.origin book.old.state }
    requires at_it { IsAt plan.now (record {
      flat = T.Space.flat;
      spares = T.Space.spares;
      finished = T.Space.finished;
      pin = T.Space.pin;
    }) ports.old service.origin.i service.work book.old }
    ensures out { IfOk result (λ out. SetsOut plan.now (record {
      flat = T.Space.flat;
      spares = T.Space.spares;
      finished = T.Space.finished;
      pin = T.Space.pin;
    }) service.entry.origin.i (counted_in service.entry.work) (level_in service.entry.work) out
        ports.new book.old book.new) }
    ensures stopped { OnErr result (book.new.stopped ≡ true) }
{
    let Service { origin, work } = service;
    match work {
        Work::Deployed { function, deployed } => {
            let begun = Begun {
                origin,
                function,
                deployed,
            };
            set_out_new(alloc, plan, store, book, begun, ports)
        }
        Work::Between(context) => set_out_context(alloc, store, book, origin, context, ports),
        Work::Layer(context, run) => Ok(SetOut::InLayer(InRun {
            origin,
            context,
            run,
        })),
        Work::Request(context, run) => Ok(SetOut::InRequest(InRun {
            origin,
            context,
            run,
        })),
    }
}
