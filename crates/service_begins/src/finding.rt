//! A request finds what serves it.

ghost use Rattle.std.specs.Prelude.{◌≡◌, ◌<◌, ◌∷◌, [], false, true, None, IfOk, IfSome, OnErr};
ghost use Rattle.std.specs.Prelude.{length, slice_get};
ghost use Rattle.deployer.specs.Grounds.{AreGrounds, IsSizedBy};
ghost use Rattle.journal_model.specs.Legal.{deployed_how, first_for};
ghost use Rattle.journal_model.specs.declared.answer.How.TheVariants as how;
ghost use Rattle.plan_model.specs.Stacks.{stack};
ghost use Rattle.request_service.specs.Starting.{Finds};
ghost use Rattle.request_service.specs.UnderWay.{Waits};
ghost use Rattle.request_service.specs.declared.service.Work.TheVariants as work;

use book_core::{Book, Deployed, Grounds};
use context_uc::{Context, Layer};
use deployer::{deploy_host, take_host};
use journal_model::How;
use layer_model::Plan;
use machine_model::Memory;
use request_service::{Origin, Service, Turned, Unserved, Work};
use service_ends::give_up_waiting;
use space_api::{Parked, Space, Store};
use std::alloc::Global;

/// Where a context came from that was deployed from this place: warm from the topmost layer of the
/// stack, and cold from below it.
fn how_deployed(stack: &[u16], from: Option<u16>) -> How
    ensures { result ≡ deployed_how stack.now from }
{
    let Some(layer) = from else {
        return How::Cold;
    };
    match stack.last() {
        Some(top) if *top == layer => How::Warm,
        Some(_) | None => How::Cold,
    }
}

/// The service of a request by a context that was taken.
fn hot<'a, S: Space>(i: u32, context: Context<'a, S>) -> Service<Context<'a, S>, S>
    ensures { result ≡ record {
      origin = record {
        i = i;
        how = how.Hot;
        context = context.entry.id;
        used = length context.entry.served;
      };
      work = work.Between context.entry;
    } }
{
    context.is_the_model();
    let origin = Origin {
        i,
        how: How::Hot,
        context: context.id(),
        used: context.served().len() as u32,
    };
    Service {
        origin,
        work: Work::Between(context),
    }
}

/// The service of a request by the context that is to begin in a space that was deployed.
fn fresh<C, S>(plan: &Plan, request: Unserved, deployed: Deployed<S>) -> Service<C, S>
    requires there { request.function < length plan.now.functions }
    ensures { IfSome (slice_get plan.now.functions request.function) (λ found. result ≡ record {
      origin = record {
        i = request.i;
        how = deployed_how (stack plan.now.layers found.layer) deployed.from;
        context = deployed.context;
        used = 0;
      };
      work = work.Deployed request.function deployed;
    }) }
{
    let origin = Origin {
        i: request.i,
        how: how_deployed(plan.stack(request.function), deployed.from),
        context: deployed.context,
        used: 0,
    };
    Service {
        origin,
        work: Work::Deployed {
            function: request.function,
            deployed,
        },
    }
}

/// A new context's space for a request for whose function no context is idle; or its line, where it
/// found no memory. The only error is want of memory, and stops the book.
fn deploy_service<'a, T: Store, G: Grounds<Context<'a, T::Space>, Layer<'a, T::Frozen>>>(
    alloc: Global,
    plan: &'a Plan,
    store: &T,
    book: &mut Book<Context<'a, T::Space>, Layer<'a, T::Frozen>, T::Shelf, G>,
    request: Unserved,
) -> Result<Turned<Context<'a, T::Space>, T::Space>, Memory>
    requires copied { T.Space.takes_frames ≡ false }
    requires sizes { IsSizedBy plan.now book.old.sizes }
    requires grounds { AreGrounds plan.now T.Frozen.flat G.is_context G.is_layer }
    requires there { request.function < length plan.now.functions }
    requires waits { Waits request book.old }
    requires none { first_for request.function book.old.state.contexts book.old.state.idle
        ≡ None }
    ensures finds { IfOk result (λ turned. Finds plan.now (record {
      flat = T.Space.flat;
      spares = T.Space.spares;
      finished = T.Space.finished;
      pin = T.Space.pin;
    }) request.i turned book.old book.new) }
    ensures stopped { OnErr result (book.new.stopped ≡ true) }
{
    plan.is_sound();
    book.is_sound();
    match deploy_host(alloc, plan, store, book, request.i, request.function) {
        Ok(deployed) => Ok(Turned::Went(fresh(plan, request, deployed))),
        Err(Memory) => Ok(Turned::Answered(give_up_waiting(alloc, store, book, request)?)),
    }
}

/// What serves a request that waits: the most recently parked context of its function, or else the
/// space of a new one; or its line, where it found no memory. The only error is want of memory, and
/// stops the book.
pub fn find_service<'a, T: Store, G: Grounds<Context<'a, T::Space>, Layer<'a, T::Frozen>>>(
    alloc: Global,
    plan: &'a Plan,
    store: &T,
    book: &mut Book<Context<'a, T::Space>, Layer<'a, T::Frozen>, T::Shelf, G>,
    request: Unserved,
) -> Result<Turned<Context<'a, T::Space>, T::Space>, Memory>
    requires copied { T.Space.takes_frames ≡ false }
    requires sizes { IsSizedBy plan.now book.old.sizes }
    requires grounds { AreGrounds plan.now T.Frozen.flat G.is_context G.is_layer }
    requires there { request.function < length plan.now.functions }
    requires waits { Waits request book.old }
    ensures finds { IfOk result (λ turned. Finds plan.now (record {
      flat = T.Space.flat;
      spares = T.Space.spares;
      finished = T.Space.finished;
      pin = T.Space.pin;
    }) request.i turned book.old book.new) }
    ensures stopped { OnErr result (book.new.stopped ≡ true) }
{
    book.is_sound();
    match take_host::<T, G>(plan, book, request.i, request.function) {
        Ok(Some(context)) => Ok(Turned::Went(hot(request.i, context))),
        Ok(None) => deploy_service(alloc, plan, store, book, request),
        Err(Memory) => Ok(Turned::Answered(give_up_waiting(alloc, store, book, request)?)),
    }
}
