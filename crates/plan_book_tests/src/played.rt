//! A book in which one request is started, and finds no memory.

ghost use Rattle.std.specs.Prelude.{◌≡◌, ◌<◌, false, length};
ghost use Rattle.plan_book.specs.Opened.{fresh_book};
ghost use Rattle.plan_book_tests.specs.First.{MayBeFirst};

use plan_book::{
    Book, Grounds, Memory, Plan, PlanGrounds, Planned, Remains, Started, close_book, open_book,
    take_apart,
};
use space_api::{Kept, Parked, Stock, Store};
use std::alloc::Global;
use std::marker::Brand;

/// What was left of a book, and the number of its one request.
#[derive(Drop)]
pub struct Played<H: Drop> {
    pub remains: Remains<H>,
    pub request: u32,
}

/// The first request is started in a fresh book, and finds no memory. Answers its number. The only
/// error is want of memory.
fn given_up<C: Parked, L: Kept, H: Stock, G: Grounds<C, L>>(
    alloc: Global,
    book: &mut Book<C, L, H, G>,
    one: &Started,
) -> Result<u32, Memory>
    requires fresh { book.old ≡ fresh_book book.old.sizes book.old.images book.old.shelf }
    requires may { MayBeFirst book.old.sizes one.now.function one.now.given.clock }
{
    let i = book.start(alloc, one)?;
    book.want(i)?;
    Ok(i)
}

/// A book of the plan that was picked, in which that was done. The only error is want of memory.
fn play_picked<'a, T: Store, P: Planned>(
    alloc: Global,
    plan: &'a Plan,
    store: &T,
    shelf: T::Shelf,
    one: &Started,
) -> Result<Played<T::Shelf>, Memory>
    requires picked { plan.now ≡ P.plan }
    requires copied { T.Space.takes_frames ≡ false }
    requires starts { T.starts store.now ≡ plan.now.starts }
    requires free { (T.Shelf.stocked shelf).free ≡ plan.now.numbers.frames }
    requires function { one.now.function < length plan.now.functions }
    requires clock { one.now.given.clock ≡ plan.now.numbers.clock }
{
    let mut book = open_book::<T, PlanGrounds<P>>(alloc, plan, store, shelf, 1)?;
    let request = given_up(alloc, &mut book, one);
    let remains = take_apart(store, close_book(book));
    Ok(Played {
        remains,
        request: request?,
    })
}

/// The same on the plan's own grounds. The only error is want of memory.
pub fn play_first<T: Store>(
    alloc: Global,
    plan: &Plan,
    store: &T,
    shelf: T::Shelf,
    one: &Started,
) -> Result<Played<T::Shelf>, Memory>
    requires copied { T.Space.takes_frames ≡ false }
    requires starts { T.starts store.now ≡ plan.now.starts }
    requires free { (T.Shelf.stocked shelf).free ≡ plan.now.numbers.frames }
    requires function { one.now.function < length plan.now.functions }
    requires clock { one.now.given.clock ≡ plan.now.numbers.clock }
{
    play_picked::<T, Brand>(alloc, plan, store, shelf, one)
}
