//! Contexts that answered are parked.

ghost use Rattle.std.specs.Prelude.{◌≡◌, ◌++◌, ◌∷◌, ◌≤◌, true, IsErr, IfOk, IfErr, OnErr, IsSome};
ghost use Rattle.std.specs.Prelude.{◌+◌, ◌-◌, ◌<◌, Some, option_map, length};
ghost use Rattle.journal_model.specs.Legal.{after_all};
ghost use Rattle.journal_model.specs.declared.event.Event.TheVariants.{Answer, Park};
ghost use Rattle.space_api.specs.Holding.{if_taken};
ghost use Rattle.book_model.specs.Steps.{Parks, MayPark, evicts, backs};

use crate::book::Book;
use crate::grounds::Grounds;
use book_log::Log;
use journal_model::Event;
use space_api::{Given, Kept, Parked, Stock, Store};

/// How many requests were served before the last of these, which are fewer than so many. It stands
/// apart for the proof of `Book::park`.
fn earlier(served: &[Given], _uses: u32) -> u32
    requires some { 1 ≤ length served.now }
    requires few { length served.now < _uses }
    ensures { result ≡ length served.now - 1 }
{
    served.len() as u32 - 1
}

/// `answer i c u`, and `evict e` where a context makes room. It stands apart for the proof of
/// `Book::park`.
fn note_answer(log: &mut Log, i: u32, c: u32, u: u32, last: Option<u32>)
    requires room { 2 ≤ log.old.room }
    requires may { IsSome
        (after_all log.old.sizes log.old.state (Answer i c u ∷ evicts last)) }
    ensures state { after_all log.old.sizes log.old.state (Answer i c u ∷ evicts last)
        ≡ Some log.new.state }
    ensures rest { log.new ≡ record log.old {
      events = log.old.events ++ (Answer i c u ∷ evicts last);
      state = log.new.state;
      room = log.new.room;
    } }
    ensures left { log.old.room ≤ log.new.room + 2 }
{
    log.append(Event::Answer { i, c, u });
    match last {
        None => {}
        Some(e) => log.append(Event::Evict { c: e }),
    }
}

/// `park c`, and `back n` where frames come back. It stands apart for the proof of `Book::park`.
fn note_park(log: &mut Log, c: u32, n: u32)
    requires room { 2 ≤ log.old.room }
    requires may { IsSome (after_all log.old.sizes log.old.state (Park c ∷ backs n)) }
    ensures state { after_all log.old.sizes log.old.state (Park c ∷ backs n)
        ≡ Some log.new.state }
    ensures rest { log.new ≡ record log.old {
      events = log.old.events ++ (Park c ∷ backs n);
      state = log.new.state;
      room = log.new.room;
    } }
{
    log.append(Event::Park { c });
    if n == 0 {
        return;
    }
    log.append(Event::Back { n });
}

/// The number and the value apart, where there are any. It stands apart for the proof of
/// `Book::park`.
fn parted<C>(last: Option<(u32, C)>) -> (Option<u32>, Option<C>)
    ensures number { result.0 ≡ option_map (λ e. e.0) last }
    ensures value { result.1 ≡ option_map (λ e. e.1) last }
{
    match last {
        None => (None, None),
        Some((number, value)) => (Some(number), Some(value)),
    }
}

impl<C: Parked, L: Kept, H: Stock, G: Grounds<C, L>> Book<C, L, H, G> {
    /// `answer i c u` of a context that served u requests before this one; `evict e` of the context
    /// that was parked first of all where there is no room, which comes back; `park c`; and
    /// `back n` where there are spares, which come to the shelf. The only error is want of memory,
    /// which always comes of a stopped book: it hands context and spares back, and nothing
    /// changed.
    pub fn park<T: Store<Shelf = H>>(
        &mut self,
        store: &T,
        i: u32,
        context: C,
        spares: T::Spares,
    ) -> Result<Option<C>, (C, T::Spares)>
        requires root { self.old.sizes.root ≡ if_taken T.Space.takes_frames 1 }
        requires may { MayPark i (C.parked context) (C.pin context) self.old }
        requires grounds { G.is_context context }
        ensures parked { IfOk result (λ handed. Parks i (T.number spares)
            (T.Spares.stake spares) context (C.parked context) H.stocked handed self.old
            self.new) }
        ensures back { IfErr result (λ given. given ≡ (context, spares)) }
        ensures memory { OnErr result (self.new ≡ self.old) }
        ensures stopped { self.old.stopped ≡ true → IsErr result }
    {
        if self.stopped || self.log.reserve(4).is_err() {
            return Err((context, spares));
        }
        let c = context.id();
        let u = earlier(context.served(), self.log.sizes().uses);
        let n = store.count(&spares);
        match self.idle.park(c, context.function(), context) {
            Err(context) => Err((context, spares)),
            Ok(last) => {
                let (e, evicted) = parted(last);
                store.give_back(&mut self.shelf, spares);
                note_answer(&mut self.log, i, c, u, e);
                note_park(&mut self.log, c, n);
                Ok(evicted)
            }
        }
    }
}
