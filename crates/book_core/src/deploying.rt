//! Contexts are deployed.

ghost use Rattle.std.specs.Prelude.{◌≡◌, ◌+◌, ◌<◌, ◌≤◌, true, false, None, Err, is_ok, IsSome};
ghost use Rattle.std.specs.Prelude.{IfSome, OnOk, IfOk, OnErr};
ghost use Rattle.std.specs.List.{slice_get};
ghost use Rattle.std.specs.Map.{keys_of};
ghost use Rattle.cache_lists.specs.Recent.{with_entries};
ghost use Rattle.journal_model.specs.Legal.{is_waiting, request_function, first_for};
ghost use Rattle.journal_model.specs.State.{stack_of, highest_kept};
ghost use Rattle.space_api.specs.Holding.{if_taken, holding_of, first_stake, Gave};
ghost use Rattle.space_api.specs.Stores.{spaced_of, frozen, RefusesRightly};
ghost use Rattle.space_api.specs.declared.refused.Refused.TheVariants as refused;
ghost use Rattle.book_model.specs.Below.{below_in, layers_with, image_with};
ghost use Rattle.book_model.specs.Steps.{Deploys, DeploysNone, start_of};

use crate::book::Book;
use crate::grounds::Grounds;
use book_log::Log;
use journal_model::Event;
use machine_model::Hart;
use slot_lists::LayerSlots;
use space_api::{Kept, KeptIn, Parked, Refused, Stock, Store};
use std::alloc::Global;

/// What a deploy made.
#[derive(Drop)]
pub struct Deployed<S> {
    /// The number of the context.
    pub context: u32,
    /// The layer from which it was deployed, or none where it was the image.
    pub from: Option<u16>,
    /// The hart with which it begins.
    pub hart: Hart,
    /// Its space, which is still to be finished (`Store::finish_deploy`).
    pub space: S,
}

/// The highest of these layers, from the lowest up, that is kept; none where none is.
fn highest<L>(kept: &LayerSlots<L>, stack: &[u16]) -> Option<u16>
    ensures { result ≡ highest_kept (keys_of kept.now.entries) stack.now }
{
    let mut left = stack.len();
    while left > 0 {
        left -= 1;
        let k = stack[left];
        if kept.has(k) {
            return Some(k);
        }
    }
    None
}

/// Where the image of the function of a request that waits stands.
fn image_of(log: &Log, i: u32) -> usize
    requires waiting { is_waiting log.now.state i ≡ true }
    ensures { result ≡ start_of (slice_get log.now.sizes.stacks
        (request_function log.now.state i)) }
{
    log.is_sound();
    let function = log.started()[i as usize - 1].function;
    log.sizes().stacks[function as usize].start as usize
}

/// The hart that what is deployed from a kept layer, or else from the image, begins with.
fn hart_below<L: Kept>(kept: &LayerSlots<L>, image: &L, from: Option<u16>) -> Hart
    requires there { IsSome (below_in from kept.now.entries image.now) }
    ensures { IfSome (below_in from kept.now.entries image.now)
        (λ below. result ≡ (L.kept below).hart) }
{
    match from {
        None => *image.hart(),
        Some(k) => match kept.get(k) {
            Some(layer) => *layer.hart(),
            None => unreachable!(),
        },
    }
}

/// A space with the bytes of a kept layer, or else of the image, as `KeptIn::deploy_on` makes it.
fn deploy_below<T: Store, L: KeptIn<T>>(
    kept: &mut LayerSlots<L>,
    image: &mut L,
    from: Option<u16>,
    alloc: Global,
    store: &T,
    shelf: &mut T::Shelf,
) -> Result<T::Space, Refused>
    requires there { IsSome (below_in from kept.old.entries image.old) }
    requires loose { IfSome (below_in from kept.old.entries image.old)
        (λ below. L.pin below ≡ None) }
    requires stake { T.Space.takes_frames ≡ true →
        first_stake < (T.Shelf.stocked shelf.old).stake }
    ensures space { IfSome (below_in from kept.old.entries image.old) (λ below. IfOk result
        (λ space. spaced_of (T.Space.flat space) (T.Space.spares space)
        (T.Space.finished space) ≡ spaced_of (frozen (L.kept below).memory.flat) 0 false)) }
    ensures holds { IfSome (below_in from kept.old.entries image.old) (λ below. IfOk result
        (λ space. (T.Space.stake space ≡ if_taken T.Space.takes_frames first_stake)
        × (T.Space.span space ≤ L.span below + if_taken T.Space.takes_frames 1)
        × (T.Space.pin space ≡ None))) }
    ensures layers { IfSome (below_in from kept.old.entries image.old) (λ below. (new : L)
        × L.tells_same below new
        × (holding_of (L.stake new) (L.span new) (L.pin new)
        ≡ holding_of (L.stake below) (L.span below) (L.pin below))
        × (kept.new ≡ with_entries (layers_with from (is_ok result) new kept.old.entries)
        kept.old) × (image.new ≡ image_with from new image.old)) }
    ensures gave { OnOk result (Gave T.Space.takes_frames 1 first_stake
        (T.Shelf.stocked shelf.old) (T.Shelf.stocked shelf.new)) }
    ensures unchanged { OnErr result
        (T.Shelf.stocked shelf.new ≡ T.Shelf.stocked shelf.old) }
    ensures refused { RefusesRightly T.Space.takes_frames T.Space.lacks_memory
        (T.Shelf.stocked shelf.old).free 1 result }
{
    match from {
        None => image.deploy_on(alloc, store, shelf),
        Some(k) => kept.deploy(alloc, store, shelf, k),
    }
}

impl<C: Parked, L: Kept, H: Stock, G: Grounds<C, L>> Book<C, L, H, G> {
    /// `deploy c k i n`: the next context, for a request that waits, from the highest kept layer of
    /// its function's stack, which goes to the front, or else from its image.
    ///
    /// `Frames` comes, without an event, only over frames, where the shelf is empty. `Memory`
    /// always comes of a stopped book. After either nothing that is kept tells or holds anything
    /// else.
    pub fn deploy_from<T: Store<Shelf = H>>(
        &mut self,
        alloc: Global,
        store: &T,
        i: u32,
        stack: &[u16],
    ) -> Result<Deployed<T::Space>, Refused>
    where
        L: KeptIn<T>,
        requires root { self.old.sizes.root ≡ if_taken T.Space.takes_frames 1 }
        requires waiting { is_waiting self.old.state i ≡ true }
        requires stack { stack.now
            ≡ stack_of self.old.sizes (request_function self.old.state i) }
        requires none_waits { first_for (request_function self.old.state i)
            self.old.state.contexts self.old.state.idle ≡ None }
        ensures deployed { IfOk result (λ d. Deploys L.kept L.tells_same
            (λ l. holding_of (L.stake l) (L.span l) (L.pin l)) H.stocked
            i d.context d.from d.hart T.Space.takes_frames
            (spaced_of (T.Space.flat d.space) (T.Space.spares d.space)
            (T.Space.finished d.space))
            (holding_of (T.Space.stake d.space) (T.Space.span d.space) (T.Space.pin d.space))
            self.old self.new) }
        ensures none { OnErr result (DeploysNone L.kept L.tells_same
            (λ l. holding_of (L.stake l) (L.span l) (L.pin l)) H.stocked i self.old self.new) }
        ensures frames { result ≡ Err refused.Frames → (T.Space.takes_frames ≡ true)
            × ((H.stocked self.old.shelf).free ≡ 0) }
        ensures stopped { self.old.stopped ≡ true →
            (result ≡ Err refused.Memory) × (self.new ≡ self.old) }
    {
        if self.stopped || self.log.reserve(1).is_err() {
            return Err(Refused::Memory);
        }
        let from = highest(&self.kept, stack);
        let at = image_of(&self.log, i);
        let hart = hart_below(&self.kept, &self.images[at], from);
        let space = deploy_below(
            &mut self.kept,
            &mut self.images[at],
            from,
            alloc,
            store,
            &mut self.shelf,
        )?;
        let c = self.log.drawn() + 1;
        let n = self.log.sizes().root;
        self.log.append(Event::Deploy { c, k: from, i, n });
        Ok(Deployed {
            context: c,
            from,
            hart,
            space,
        })
    }
}
