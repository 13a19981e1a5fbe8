//! A book that is opened, and taken apart at once.

ghost use Rattle.std.specs.Prelude.{◌≡◌, ◌≤◌, IfOk, [], false};
ghost use Rattle.book_model.specs.Kept.{most_requests};
ghost use Rattle.plan_book.specs.Sized.{sizes_for};

use plan_book::{
    Memory, Plan, PlanGrounds, Planned, Remains, Sizes, close_book, open_book, take_apart,
};
use space_api::Store;
use std::alloc::Global;
use std::marker::Brand;

/// The sizes of a book, and what was left of it.
#[derive(Drop)]
pub struct Opened<H: Drop> {
    pub sizes: Sizes,
    pub remains: Remains<H>,
}

/// A book of the plan that was picked, for so many requests. The only error is want of memory.
fn open_picked<'a, T: Store, P: Planned>(
    alloc: Global,
    plan: &'a Plan,
    store: &T,
    shelf: T::Shelf,
    requests: u32,
) -> Result<Opened<T::Shelf>, Memory>
    requires picked { plan.now ≡ P.plan }
    requires copied { T.Space.takes_frames ≡ false }
    requires starts { T.starts store.now ≡ plan.now.starts }
    requires free { (T.Shelf.stocked shelf).free ≡ plan.now.numbers.frames }
    requires few { requests ≤ most_requests }
    ensures sizes { IfOk result (λ opened. opened.sizes ≡ sizes_for plan.now requests) }
    ensures events { IfOk result (λ opened. opened.remains.events.items ≡ []) }
    ensures started { IfOk result (λ opened. opened.remains.started.items ≡ []) }
{
    let book = open_book::<T, PlanGrounds<P>>(alloc, plan, store, shelf, requests)?;
    let sizes = book.sizes().copy(alloc);
    let remains = take_apart(store, close_book(book));
    Ok(Opened {
        sizes: sizes?,
        remains,
    })
}

/// A book of the plan on the plan's own grounds, for so many requests. The only error is want of
/// memory.
pub fn open_and_close<T: Store>(
    alloc: Global,
    plan: &Plan,
    store: &T,
    shelf: T::Shelf,
    requests: u32,
) -> Result<Opened<T::Shelf>, Memory>
    requires copied { T.Space.takes_frames ≡ false }
    requires starts { T.starts store.now ≡ plan.now.starts }
    requires free { (T.Shelf.stocked shelf).free ≡ plan.now.numbers.frames }
    requires few { requests ≤ most_requests }
    ensures sizes { IfOk result (λ opened. opened.sizes ≡ sizes_for plan.now requests) }
    ensures events { IfOk result (λ opened. opened.remains.events.items ≡ []) }
    ensures started { IfOk result (λ opened. opened.remains.started.items ≡ []) }
{
    open_picked::<T, Brand>(alloc, plan, store, shelf, requests)
}
