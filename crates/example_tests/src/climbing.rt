//! From an image up to the topmost layer of a stack.

ghost use Rattle.std.specs.Prelude.{◌≡◌, None, IfSome};
ghost use Rattle.context_uc_tests.specs.Standing.{IsOpen};

use context_uc::{Context, Layer};
use context_uc_tests::{Bench, Climbed, climb};
use space_api::Store;
use std::alloc::Global;
use std::sync::ledger::Ledger;

/// Runs a context up through these layers, from the lowest on, and takes each of them. The last
/// one is what is answered. None is for want of memory, where there are no layers, or where one
/// of them isn't directly above the context or its run misses its trigger.
pub fn climb_all<'a, T: Store, L: Ledger>(
    alloc: Global,
    store: &T,
    bench: &mut Bench<L>,
    context: Context<'a, T::Space>,
    stack: &[u16],
) -> Option<Climbed<Layer<'a, T::Frozen>, Context<'a, T::Space>>>
    requires open { IsOpen T.Space.pin context }
    ensures open { IfSome result (λ c. IsOpen T.Space.pin c.context) }
    ensures loose { IfSome result (λ c. IfSome c.layer (λ l. T.Frozen.pin l.frozen ≡ None)) }
{
    match stack {
        [] => None,
        [last] => climb(alloc, store, bench, context, *last),
        [first, rest @ ..] => {
            let climbed = climb(alloc, store, bench, context, *first)?;
            climb_all(alloc, store, bench, climbed.context, rest)
        }
    }
}
