//! A service ends: its context is parked, or over.

ghost use Rattle.std.specs.Prelude.{◌≡◌, ◌<◌, ◌∷◌, [], true, false, OnOk, OnErr, IsSome, IfSome};
ghost use Rattle.std.specs.Prelude.{length, option_map};
ghost use Rattle.book_model.specs.Steps.{MayPark, ended, last_idle, parked_events, used_before};
ghost use Rattle.context_uc.specs.Views.{parked_of};
ghost use Rattle.journal_model.specs.Legal.{after_all, is_open};
ghost use Rattle.deployer.specs.Closing.{MayWant};
ghost use Rattle.deployer.specs.Grounds.{AreGrounds, IsContextOf};
ghost use Rattle.service_model.specs.Going.{WentBy, wanted_events};

use crate::returning::give;
use book_core::{Book, Grounds};
use context_uc::{Context, Layer, end, strip};
use machine_model::Memory;
use space_api::{Kept, Parked, Store};

/// The context answered the request and is idle; what went for it is over. The only error is want
/// of memory, and stops the book.
pub fn park<'a, T: Store, G: Grounds<Context<'a, T::Space>, Layer<'a, T::Frozen>>>(
    store: &T,
    book: &mut Book<Context<'a, T::Space>, Layer<'a, T::Frozen>, T::Shelf, G>,
    i: u32,
    context: Context<'a, T::Space>,
) -> Result<(), Memory>
    requires copied { T.Space.takes_frames ≡ false }
    requires root { book.old.sizes.root ≡ 0 }
    requires grounds { AreGrounds context.plan T.Frozen.flat G.is_context G.is_layer }
    requires of_plan { IsContextOf context.plan context }
    requires may { MayPark i (parked_of T.Space.spares context) (T.Space.pin context.space)
        book.old }
    requires served { context.stripped < length context.served }
    ensures went { OnOk result (WentBy (parked_events i context.entry.id
        (used_before (parked_of T.Space.spares context.entry)) 0 (last_idle book.old))
        book.old book.new) }
    ensures stopped { OnErr result (book.new.stopped ≡ true) }
{
    book.is_sound();
    let mut context = context;
    let spares = strip(store, &mut context);
    match book.park(store, i, context, spares) {
        Err((context, spares)) => {
            book.abandon(store, Some(spares));
            book.abandon(store, Some(end(store, context)));
            Err(Memory)
        }
        Ok(None) => Ok(()),
        Ok(Some(last)) => give(store, book, end(store, last)),
    }
}

/// The context of that number, of which these are the spares, is over, after it answered the
/// request, where it did, after so many others. The only error is want of memory, and stops the
/// book.
pub fn finish<T: Store, C: Parked, L: Kept, G: Grounds<C, L>>(
    store: &T,
    book: &mut Book<C, L, T::Shelf, G>,
    i: u32,
    c: u32,
    answered: Option<u32>,
    spares: T::Spares,
) -> Result<(), Memory>
    requires copied { T.Space.takes_frames ≡ false }
    requires root { book.old.sizes.root ≡ 0 }
    requires may { IsSome (after_all book.old.sizes book.old.state (ended i c answered)) }
    ensures went { OnOk result (WentBy (ended i c answered) book.old book.new) }
    ensures stopped { OnErr result (book.new.stopped ≡ true) }
{
    match book.end(i, c, answered) {
        Ok(()) => give(store, book, spares),
        Err(Memory) => {
            book.abandon(store, Some(spares));
            Err(Memory)
        }
    }
}

/// The request found no memory, and its context, of which these are the spares, is over, where it
/// has one. The only error is want of memory, and stops the book.
pub fn wanted<T: Store, C: Parked, L: Kept, G: Grounds<C, L>>(
    store: &T,
    book: &mut Book<C, L, T::Shelf, G>,
    i: u32,
    host: Option<(u32, T::Spares)>,
) -> Result<(), Memory>
    requires copied { T.Space.takes_frames ≡ false }
    requires root { book.old.sizes.root ≡ 0 }
    requires open { is_open book.old.state i ≡ true }
    requires may { MayWant i (option_map (λ h. h.0) host) book.old }
    ensures went { OnOk result (WentBy (wanted_events i (option_map (λ h. h.0) host))
        book.old book.new) }
    ensures stopped { OnErr result (book.new.stopped ≡ true) }
{
    match host {
        None => match book.want(i) {
            Ok(()) => Ok(()),
            Err(Memory) => {
                book.abandon(store, None);
                Err(Memory)
            }
        },
        Some((c, spares)) => match book.want(i) {
            Ok(()) => finish(store, book, i, c, None, spares),
            Err(Memory) => {
                book.abandon(store, Some(spares));
                Err(Memory)
            }
        },
    }
}
