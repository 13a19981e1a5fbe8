//! Requests that find no memory.

ghost use Rattle.std.specs.Prelude.{◌≡◌, false, true, None, Some, IfOk, OnErr};
ghost use Rattle.batch_model.specs.Replies.{nothing_but, shown_in};
ghost use Rattle.journal_model.specs.declared.answer.End.TheVariants as ends;
ghost use Rattle.journal_model.specs.declared.state.ContextState.{ContextState};
ghost use Rattle.plan_model.specs.Outline.{Outline};
ghost use Rattle.request_service.specs.Ending.{IsHeldBy};
ghost use Rattle.request_service.specs.Turns.{Closes};
ghost use Rattle.request_service.specs.UnderWay.{IsKnownAs, Waits};
ghost use Rattle.service_laws.specs.Serving.{IsServing};
ghost use Rattle.service_model.specs.Going.{wanted_events};

use book_core::{Book, Grounds};
use context_uc::{Context, Layer, end};
use deployer::wanted;
use journal_model::{Answer, End, How, Packets};
use machine_model::{Memory, Packet};
use request_service::{Origin, Unserved};
use space_api::{Kept, Parked, Store};
use std::alloc::Global;

/// The line of a request that found no memory. It takes none.
fn memory_line(alloc: Global, origin: Origin) -> Answer
    ensures number { result.i ≡ origin.i }
    ensures how { result.how ≡ origin.how }
    ensures context { result.context ≡ origin.context }
    ensures used { result.used ≡ origin.used }
    ensures shown { shown_in result ≡ nothing_but ends.Memory }
    ensures end { result.end ≡ ends.Memory }
{
    let console = match Packet::new(Vec::new(alloc)) {
        Some(packet) => packet,
        None => unreachable!(),
    };
    Answer {
        i: origin.i,
        how: origin.how,
        context: origin.context,
        used: origin.used,
        end: End::Memory,
        steps: 0,
        net: Packets::none(alloc),
        console,
    }
}

/// A request found no memory while its context, of which these are the spares, served it: it is
/// closed with that line, and the context is over. The only error is want of memory, and stops the
/// book.
pub fn give_up<T: Store, C: Parked, L: Kept, G: Grounds<C, L>>(
    alloc: Global,
    store: &T,
    book: &mut Book<C, L, T::Shelf, G>,
    origin: Origin,
    spares: T::Spares,
) -> Result<Answer, Memory>
    requires copied { T.Space.takes_frames ≡ false }
    requires root { book.old.sizes.root ≡ 0 }
    requires known { IsKnownAs origin book.old.state }
    requires serving { (x : ContextState) × IsServing book.old.state origin.i origin.context x }
    ensures closes { IfOk result (λ answer. (plan : Outline) → Closes plan origin.i answer
        (wanted_events origin.i (Some origin.context)) book.old book.new) }
    ensures end { IfOk result (λ answer. answer.end ≡ ends.Memory) }
    ensures stopped { OnErr result (book.new.stopped ≡ true) }
{
    book.is_sound();
    wanted(store, book, origin.i, Some((origin.context, spares)))?;
    Ok(memory_line(alloc, origin))
}

/// A request found no memory while it waited: it is closed with that line. The only error is want
/// of memory, and stops the book.
pub fn give_up_waiting<T: Store, C: Parked, L: Kept, G: Grounds<C, L>>(
    alloc: Global,
    store: &T,
    book: &mut Book<C, L, T::Shelf, G>,
    request: Unserved,
) -> Result<Answer, Memory>
    requires copied { T.Space.takes_frames ≡ false }
    requires root { book.old.sizes.root ≡ 0 }
    requires waits { Waits request book.old }
    ensures closes { IfOk result (λ answer. (plan : Outline) → Closes plan request.i answer
        (wanted_events request.i None) book.old book.new) }
    ensures end { IfOk result (λ answer. answer.end ≡ ends.Memory) }
    ensures stopped { OnErr result (book.new.stopped ≡ true) }
{
    book.is_sound();
    wanted(store, book, request.i, None)?;
    let origin = Origin {
        i: request.i,
        how: How::None,
        context: 0,
        used: 0,
    };
    Ok(memory_line(alloc, origin))
}

/// A request found no memory while this context served it: it is closed with that line, and the
/// context is over. The only error is want of memory, and stops the book.
pub fn lose_context<'a, T: Store, G: Grounds<Context<'a, T::Space>, Layer<'a, T::Frozen>>>(
    alloc: Global,
    store: &T,
    book: &mut Book<Context<'a, T::Space>, Layer<'a, T::Frozen>, T::Shelf, G>,
    origin: Origin,
    context: Context<'a, T::Space>,
) -> Result<Answer, Memory>
    requires copied { T.Space.takes_frames ≡ false }
    requires root { book.old.sizes.root ≡ 0 }
    requires held { IsHeldBy origin context.id book.old }
    requires loose { T.Space.pin context.space ≡ None }
    ensures closes { IfOk result (λ answer. (plan : Outline) → Closes plan origin.i answer
        (wanted_events origin.i (Some origin.context)) book.old book.new) }
    ensures end { IfOk result (λ answer. answer.end ≡ ends.Memory) }
    ensures stopped { OnErr result (book.new.stopped ≡ true) }
{
    book.is_sound();
    let spares = end(store, context);
    give_up(alloc, store, book, origin, spares)
}
