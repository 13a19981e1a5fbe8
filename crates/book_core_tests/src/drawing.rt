//! Contexts are deployed to serve.

ghost use Rattle.std.specs.Prelude.{◌≡◌, true, false, None, IfOk};
ghost use Rattle.journal_model.specs.State.{stack_of};
ghost use Rattle.journal_model.specs.Legal.{is_waiting, request_function, first_for};
ghost use Rattle.space_api.specs.Holding.{first_stake, if_taken};

use crate::play::Served;
use crate::played::Played;
use crate::waiter::Waiter;
use book_core::Deployed;
use journal_model::Sizes;
use machine_model::Memory;
use space_api::{Refused, Space, Store};
use std::alloc::Global;

/// The layers of a function, from the lowest up; a number that is no function has none. The only
/// error is want of memory.
#[tactic(auto, unfolding(journal_model::specs::State::stack_of))]
fn layers_of(alloc: Global, sizes: &Sizes, f: u16) -> Result<Vec<u16>, Memory>
    ensures { IfOk result (λ layers. layers.items ≡ stack_of sizes.now f) }
{
    let Some(stack) = sizes.stacks.get(usize::from(f)) else {
        return Ok(Vec::new(alloc));
    };
    match stack.layers().to_vec(alloc) {
        Ok(layers) => Ok(layers),
        Err(_) => Err(Memory),
    }
}

/// What was deployed for the function, its deploy finished, without the spares that came of it.
fn finished<T: Store>(
    alloc: Global,
    store: &T,
    f: u16,
    deployed: Deployed<T::Space>,
) -> (Waiter<T::Space>, T::Spares)
    requires loose { T.Space.pin deployed.space ≡ None }
    requires begun { T.Space.finished deployed.space ≡ false }
    requires stake { T.Space.stake deployed.space ≡ if_taken T.Space.takes_frames first_stake }
{
    let mut space = deployed.space;
    store.finish_deploy(&mut space);
    let spares = store.strip(&mut space);
    let waiter = Waiter {
        id: deployed.context,
        function: f,
        layer: deployed.from,
        served: Vec::new(alloc),
        space,
    };
    (waiter, spares)
}

impl<T: Store> Played<T> {
    /// The next context is deployed for a request of that function that waits, where none is idle.
    /// The only error is want of memory.
    pub(crate) fn drawn(
        &mut self,
        alloc: Global,
        store: &T,
        i: u32,
        f: u16,
    ) -> Result<Served<T>, Memory>
        requires waiting { is_waiting self.old.book.state i ≡ true }
        requires function { request_function self.old.book.state i ≡ f }
        requires none_waits { first_for f self.old.book.state.contexts self.old.book.state.idle
            ≡ None }
    {
        let stack = layers_of(alloc, self.book.sizes(), f)?;
        match self.book.deploy_from(alloc, store, i, &stack) {
            Err(Refused::Frames) => Ok(Served::Frames),
            Err(Refused::Memory) => Err(Memory),
            Ok(deployed) => {
                let from = deployed.from;
                let hart = deployed.hart;
                let (waiter, spares) = finished(alloc, store, f, deployed);
                self.returned(store, spares)?;
                Ok(Served::Deployed { waiter, from, hart })
            }
        }
    }
}
