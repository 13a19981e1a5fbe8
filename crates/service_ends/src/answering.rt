//! Requests that are answered.

ghost use Rattle.std.specs.Prelude.{◌≡◌, false, true, Some, OnOk, OnErr};
ghost use Rattle.book_model.specs.Steps.{ended, last_idle, parked_events};
ghost use Rattle.deployer.specs.Grounds.{AreGrounds, IsSizedBy};
ghost use Rattle.plan_model.specs.Outline.{Outline};
ghost use Rattle.request_service.specs.Ending.{IsDue, IsServedBy, MayIdle, line_of, to_park};
ghost use Rattle.request_service.specs.Turns.{Closes};

use book_core::{Book, Grounds};
use context_runs::RunReply;
use context_uc::{Context, Layer};
use deployer::{finish, park};
use journal_model::{Answer, End};
use layer_model::Plan;
use machine_model::Memory;
use request_service::Origin;
use space_api::{Kept, Parked, Store};

/// The line of a request with this reply.
pub fn answer_with(origin: Origin, reply: RunReply) -> Answer
    ensures { result ≡ line_of origin reply }
{
    Answer {
        i: origin.i,
        how: origin.how,
        context: origin.context,
        used: origin.used,
        end: reply.end,
        steps: reply.steps,
        net: reply.net,
        console: reply.console,
    }
}

/// Whether the context that answered a request with this line is to be parked: the run rested,
/// there is room for idle contexts, and the context may be used again.
pub fn is_parked(plan: &Plan, answer: &Answer) -> bool
    ensures { result ≡ to_park plan.now.numbers answer.now.end answer.now.used }
{
    let numbers = plan.numbers();
    let is_ok = match answer.end {
        End::Ok => true,
        End::Halt { .. }
        | End::Fault { .. }
        | End::Budget
        | End::NoLayer { .. }
        | End::Frames
        | End::Memory => false,
    };
    is_ok && numbers.idle >= 1 && u64::from(answer.used) + 1 < u64::from(numbers.uses)
}

/// A request is answered with this line, and its context, of which these are the spares, is over.
/// The only error is want of memory, and stops the book.
pub fn finish_request<T: Store, C: Parked, L: Kept, G: Grounds<C, L>>(
    store: &T,
    book: &mut Book<C, L, T::Shelf, G>,
    answer: &Answer,
    spares: T::Spares,
) -> Result<(), Memory>
    requires copied { T.Space.takes_frames ≡ false }
    requires root { book.old.sizes.root ≡ 0 }
    requires by { IsServedBy answer.now book.old }
    ensures closes { OnOk result ((plan : Outline) → IsDue plan answer.now book.old →
        to_park plan.numbers answer.now.end answer.now.used ≡ false →
        Closes plan answer.now.i answer.now
        (ended answer.now.i answer.now.context (Some answer.now.used)) book.old book.new) }
    ensures stopped { OnErr result (book.new.stopped ≡ true) }
{
    book.is_sound();
    finish(
        store,
        book,
        answer.i,
        answer.context,
        Some(answer.used),
        spares,
    )
}

/// A request is answered with this line, and its context is idle. The only error is want of memory,
/// and stops the book.
pub fn park_request<'a, T: Store, G: Grounds<Context<'a, T::Space>, Layer<'a, T::Frozen>>>(
    store: &T,
    book: &mut Book<Context<'a, T::Space>, Layer<'a, T::Frozen>, T::Shelf, G>,
    answer: &Answer,
    context: Context<'a, T::Space>,
) -> Result<(), Memory>
    requires copied { T.Space.takes_frames ≡ false }
    requires sizes { IsSizedBy context.plan book.old.sizes }
    requires grounds { AreGrounds context.plan T.Frozen.flat G.is_context G.is_layer }
    requires idle { MayIdle (record {
      flat = T.Space.flat;
      spares = T.Space.spares;
      finished = T.Space.finished;
      pin = T.Space.pin;
    }) answer.now context book.old }
    requires parked { to_park context.plan.numbers answer.now.end answer.now.used ≡ true }
    ensures closes { OnOk result (IsDue context.entry.plan answer.now book.old →
        Closes context.entry.plan answer.now.i answer.now (parked_events answer.now.i
        answer.now.context answer.now.used 0 (last_idle book.old)) book.old book.new) }
    ensures stopped { OnErr result (book.new.stopped ≡ true) }
{
    book.is_sound();
    park(store, book, answer.i, context)
}
