//! Contexts in hand.

ghost use Rattle.std.specs.Prelude.{◌≡◌, ◌+◌, ◌≤◌, ◌++◌, ◌∷◌, [], true, false, length, None, IfOk};
ghost use Rattle.space_api.specs.Holding.{first_stake, if_taken};
ghost use Rattle.book_core_tests.specs.Told.{parked_of};

use book_core::Deployed;
use book_core_tests::Waiter;
use machine_model::Memory;
use space_api::{Given, Space, Store};
use std::alloc::Global;

/// What was deployed for the function, its deploy finished, without the spares that came of it.
pub fn finished<T: Store>(
    alloc: Global,
    store: &T,
    f: u16,
    deployed: Deployed<T::Space>,
) -> Waiter<T::Space>
    requires loose { T.Space.pin deployed.space ≡ None }
    requires begun { T.Space.finished deployed.space ≡ false }
    requires stake { T.Space.stake deployed.space ≡ if_taken T.Space.takes_frames first_stake }
    ensures { parked_of result.id result.function result.layer result.served.items
        (T.Space.spares result.space) ≡ parked_of deployed.context f deployed.from [] 0 }
{
    let mut space = deployed.space;
    store.finish_deploy(&mut space);
    let _ = store.strip(&mut space);
    Waiter {
        id: deployed.context,
        function: f,
        layer: deployed.from,
        served: Vec::new(alloc),
        space,
    }
}

/// One more.
fn added(list: Vec<Given>, given: Given) -> Result<Vec<Given>, Memory>
    ensures { IfOk result (λ more. more.items ≡ list.items ++ given ∷ []) }
{
    let mut list = list;
    if list.push(given).is_err() {
        return Err(Memory);
    }
    Ok(list)
}

/// The context, which served this request too, stripped, with what it was stripped of. The only
/// error is want of memory; then it is lost.
pub fn served_more<T: Store>(
    store: &T,
    waiter: Waiter<T::Space>,
    given: Given,
) -> Result<(Waiter<T::Space>, T::Spares), Memory>
    requires few { length waiter.served.items + 1 ≤ 65536 }
    ensures { IfOk result (λ both. parked_of both.0.id both.0.function both.0.layer
        both.0.served.items (T.Space.spares both.0.space)
        ≡ parked_of waiter.id waiter.function waiter.layer
        (waiter.served.items ++ given ∷ []) 0) }
{
    let served = added(waiter.served, given)?;
    let mut space = waiter.space;
    let spares = store.strip(&mut space);
    let waiter = Waiter {
        id: waiter.id,
        function: waiter.function,
        layer: waiter.layer,
        served,
        space,
    };
    Ok((waiter, spares))
}
