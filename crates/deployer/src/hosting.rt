//! A request finds what serves it: a context that is idle, or what one is made of.

ghost use Rattle.std.specs.Prelude.{◌≡◌, ◌<◌, ◌∷◌, [], true, false, None, IfOk, OnErr, length};
ghost use Rattle.journal_model.specs.Legal.{first_for, is_waiting, request_function};
ghost use Rattle.journal_model.specs.declared.event.Event.TheVariants.{Deploy};
ghost use Rattle.deployer.specs.Grounds.{AreGrounds, IsSizedBy};
ghost use Rattle.deployer.specs.Hosting.{IsDrawn, IsFresh, TakesHost};
ghost use Rattle.service_model.specs.Going.{WentBy};

use book_core::{Book, Deployed, Grounds};
use context_uc::{Context, Layer};
use layer_model::Plan;
use machine_model::Memory;
use space_api::Store;
use std::alloc::Global;

/// The most recently parked context of the request's function; none, and nothing happened, exactly
/// where none is idle. The only error is want of memory, and then nothing happened.
pub fn take_host<'a, T: Store, G: Grounds<Context<'a, T::Space>, Layer<'a, T::Frozen>>>(
    plan: &'a Plan,
    book: &mut Book<Context<'a, T::Space>, Layer<'a, T::Frozen>, T::Shelf, G>,
    i: u32,
    function: u16,
) -> Result<Option<Context<'a, T::Space>>, Memory>
    requires grounds { AreGrounds plan.now T.Frozen.flat G.is_context G.is_layer }
    requires waiting { is_waiting book.old.state i ≡ true }
    requires function { request_function book.old.state i ≡ function }
    ensures taken { IfOk result (λ found. TakesHost plan.now (record {
      flat = T.Space.flat;
      spares = T.Space.spares;
      finished = T.Space.finished;
      pin = T.Space.pin;
    }) i function found book.old book.new) }
    ensures waits { OnErr result (book.new ≡ book.old) }
{
    book.is_sound();
    book.take_idle(i, function)
}

/// What a new context is made of, from the highest kept layer of the function's stack or from its
/// image. The only error is want of memory: then the request waits as before.
pub fn deploy_host<'a, T: Store, G: Grounds<Context<'a, T::Space>, Layer<'a, T::Frozen>>>(
    alloc: Global,
    plan: &'a Plan,
    store: &T,
    book: &mut Book<Context<'a, T::Space>, Layer<'a, T::Frozen>, T::Shelf, G>,
    i: u32,
    function: u16,
) -> Result<Deployed<T::Space>, Memory>
    requires copied { T.Space.takes_frames ≡ false }
    requires sizes { IsSizedBy plan.now book.old.sizes }
    requires grounds { AreGrounds plan.now T.Frozen.flat G.is_context G.is_layer }
    requires there { function < length plan.now.functions }
    requires waiting { is_waiting book.old.state i ≡ true }
    requires function { request_function book.old.state i ≡ function }
    requires none { first_for function book.old.state.contexts book.old.state.idle ≡ None }
    ensures went { IfOk result (λ d. WentBy
        (Deploy d.context d.from i book.old.sizes.root ∷ []) book.old book.new) }
    ensures fresh { IfOk result (λ d. IsFresh plan.now (record {
      flat = T.Space.flat;
      spares = T.Space.spares;
      finished = T.Space.finished;
      pin = T.Space.pin;
    }) function d) }
    ensures drawn { IfOk result (λ d. IsDrawn i function d book.new) }
    ensures waits { OnErr result (WentBy [] book.old book.new) }
{
    plan.is_sound();
    book.is_sound();
    match book.deploy_from(alloc, store, i, plan.stack(function)) {
        Ok(deployed) => Ok(deployed),
        Err(_) => Err(Memory),
    }
}
