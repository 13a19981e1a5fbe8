//! Kept layers.

ghost use Rattle.std.specs.Prelude.{◌≡◌, ◌+◌, ◌<◌, ◌≤◌, true, false, nat_eq, [], length, map};
ghost use Rattle.std.specs.Prelude.{None, is_some, is_ok, IsSome, IfSome, option_map};
ghost use Rattle.std.specs.Prelude.{option_copied};
ghost use Rattle.std.specs.Prelude.{IfOk, OnOk, IfErr, OnErr};
ghost use Rattle.std.specs.List.{IsDistinct};
ghost use Rattle.std.specs.Map.{keys_of, lookup, remove_entry};
ghost use Rattle.cache_lists.specs.Recent.{is_full, last_of, pushed_out, with_first, with_entries};
ghost use Rattle.space_api.specs.Holding.{holding_of, first_stake, if_taken, Gave};
ghost use Rattle.space_api.specs.Stores.{spaced_of, frozen, RefusesRightly};
ghost use Rattle.slab.specs.Slab.{get, with_value};
ghost use Rattle.slot_lists.specs.Held.{AreUnder};
ghost use Rattle.slot_lists.specs.Lists.{after_deploy};

use crate::numbers::numbered;
use cache_lists::LayerList;
use machine_model::Memory;
use slab::Slab;
use space_api::{KeptIn, Refused, Store};
use std::alloc::Global;
use std::marker::Model;

/// Kept layers by their numbers, the most recently used first. There is room for so many.
#[derive(Drop)]
pub struct LayerSlots<L> {
    list: LayerList,
    slots: Slab<L>,
}

impl<L> Model for LayerSlots<L> {
    ghost use Rattle.std.specs.Prelude.{ℕ};
    ghost use Rattle.cache_lists.specs.Recent.{Recent};
    ghost use Rattle.slot_lists.specs.Held.{AreHeld, layer_slot, held_layers};

    ghost Value = { Recent ℕ L };

    ghost view = { λ l. record {
      room = l.list.room;
      entries = held_layers l.slots.slots l.list.entries;
    } };

    ghost invariant = { λ l. AreHeld layer_slot l.slots.slots l.list.entries };
}

/// A space with the bytes of the layer under a slot that has one, as `KeptIn::deploy_on` makes it.
/// The other slots stay. It stands apart for the proof of `LayerSlots::deploy`.
fn deploy_at<T: Store, L: KeptIn<T>>(
    slots: &mut Slab<L>,
    slot: usize,
    alloc: Global,
    store: &T,
    shelf: &mut T::Shelf,
) -> Result<T::Space, Refused>
    requires there { IsSome (get slots.old slot) }
    requires loose { IfSome (get slots.old slot) (λ layer. L.pin layer ≡ None) }
    requires stake { T.Space.takes_frames ≡ true →
        first_stake < (T.Shelf.stocked shelf.old).stake }
    ensures space { IfSome (get slots.old slot) (λ layer. IfOk result
        (λ space. spaced_of (T.Space.flat space) (T.Space.spares space)
        (T.Space.finished space) ≡ spaced_of (frozen (L.kept layer).memory.flat) 0 false)) }
    ensures holds { IfSome (get slots.old slot) (λ layer. IfOk result
        (λ space. (T.Space.stake space ≡ if_taken T.Space.takes_frames first_stake)
        × (T.Space.span space ≤ L.span layer + if_taken T.Space.takes_frames 1)
        × (T.Space.pin space ≡ None))) }
    ensures layers { IfSome (get slots.old slot) (λ layer. (new : L)
        × L.tells_same layer new
        × (holding_of (L.stake new) (L.span new) (L.pin new)
        ≡ holding_of (L.stake layer) (L.span layer) (L.pin layer))
        × (slots.new ≡ with_value slots.old slot new)) }
    ensures gave { OnOk result (Gave T.Space.takes_frames 1 first_stake
        (T.Shelf.stocked shelf.old) (T.Shelf.stocked shelf.new)) }
    ensures unchanged { OnErr result
        (T.Shelf.stocked shelf.new ≡ T.Shelf.stocked shelf.old) }
    ensures refused { RefusesRightly T.Space.takes_frames T.Space.lacks_memory
        (T.Shelf.stocked shelf.old).free 1 result }
{
    match slots.get_mut(slot) {
        Some(layer) => layer.deploy_on(alloc, store, shelf),
        None => unreachable!(),
    }
}

impl<L> LayerSlots<L> {
    /// No layers, with room for so many. `Memory` where there is too little of it.
    pub fn open(alloc: Global, room: u32) -> Result<LayerSlots<L>, Memory>
        ensures { IfOk result (λ kept. kept ≡ record { room = room; entries = [] }) }
    {
        let list = LayerList::open(alloc, room)?;
        let slots = Slab::new(alloc);
        Ok(LayerSlots { list, slots })
    }

    /// Whether the layer is there.
    pub fn has(&self, k: u16) -> bool
        ensures { result ≡ is_some (lookup (nat_eq k) self.now.entries) }
    {
        self.list.find(k).is_some()
    }

    /// The layer of a number; none where it isn't there.
    pub fn get(&self, k: u16) -> Option<&L>
        ensures { option_copied result ≡ lookup (nat_eq k) self.now.entries }
    {
        match self.list.find(k) {
            Some(slot) => self.slots.get(slot),
            None => None,
        }
    }

    /// A space with the bytes of a layer that is there, as `KeptIn::deploy_on` makes it. The layer
    /// goes to the front exactly where that worked. It tells what it told, and the others stay.
    pub fn deploy<T: Store>(
        &mut self,
        alloc: Global,
        store: &T,
        shelf: &mut T::Shelf,
        k: u16,
    ) -> Result<T::Space, Refused>
    where
        L: KeptIn<T>,
        requires there { IsSome (lookup (nat_eq k) self.old.entries) }
        requires loose { IfSome (lookup (nat_eq k) self.old.entries)
            (λ layer. L.pin layer ≡ None) }
        requires stake { T.Space.takes_frames ≡ true →
            first_stake < (T.Shelf.stocked shelf.old).stake }
        ensures space { IfSome (lookup (nat_eq k) self.old.entries) (λ layer. IfOk result
            (λ space. spaced_of (T.Space.flat space) (T.Space.spares space)
            (T.Space.finished space) ≡ spaced_of (frozen (L.kept layer).memory.flat) 0 false)) }
        ensures holds { IfSome (lookup (nat_eq k) self.old.entries) (λ layer. IfOk result
            (λ space. (T.Space.stake space ≡ if_taken T.Space.takes_frames first_stake)
            × (T.Space.span space ≤ L.span layer + if_taken T.Space.takes_frames 1)
            × (T.Space.pin space ≡ None))) }
        ensures layers { IfSome (lookup (nat_eq k) self.old.entries) (λ layer. (new : L)
            × L.tells_same layer new
            × (holding_of (L.stake new) (L.span new) (L.pin new)
            ≡ holding_of (L.stake layer) (L.span layer) (L.pin layer))
            × (self.new ≡ with_entries (after_deploy (is_ok result) k new self.old.entries)
            self.old)) }
        ensures gave { OnOk result (Gave T.Space.takes_frames 1 first_stake
            (T.Shelf.stocked shelf.old) (T.Shelf.stocked shelf.new)) }
        ensures unchanged { OnErr result
            (T.Shelf.stocked shelf.new ≡ T.Shelf.stocked shelf.old) }
        ensures refused { RefusesRightly T.Space.takes_frames T.Space.lacks_memory
            (T.Shelf.stocked shelf.old).free 1 result }
    {
        let Some(slot) = self.list.find(k) else {
            unreachable!()
        };
        match deploy_at(&mut self.slots, slot, alloc, store, shelf) {
            Ok(space) => {
                self.list.touch(k);
                Ok(space)
            }
            Err(refused) => Err(refused),
        }
    }

    /// Whether there is no room for a further layer.
    pub fn is_full(&self) -> bool
        ensures { result ≡ is_full self.now }
    {
        self.list.is_full()
    }

    /// The layer that was used longest ago; none where there is none.
    pub fn last(&self) -> Option<u16>
        ensures { result ≡ option_map (λ e. e.0) (last_of self.now) }
    {
        self.list.last()
    }

    /// Takes a layer out; none where it isn't there.
    pub fn take(&mut self, k: u16) -> Option<L>
        ensures taken { result ≡ lookup (nat_eq k) self.old.entries }
        ensures rest { self.new
            ≡ with_entries (remove_entry (nat_eq k) self.old.entries) self.old }
    {
        match self.list.remove(k) {
            Some(slot) => self.slots.try_remove(slot),
            None => None,
        }
    }

    /// Puts a layer that isn't there to the front. Where there is no room the last one goes, which
    /// is answered with its number; none is answered exactly where there was room. The only error
    /// is want of memory: it hands the layer back, and nothing changed.
    pub fn keep(&mut self, k: u16, layer: L) -> Result<Option<(u16, L)>, L>
        requires room { 0 < self.old.room }
        requires absent { lookup (nat_eq k) self.old.entries ≡ None }
        ensures lost { IfOk result (λ lost. lost ≡ pushed_out self.old) }
        ensures kept { OnOk result (self.new ≡ with_first k layer self.old) }
        ensures back { IfErr result (λ given. given ≡ layer) }
        ensures memory { OnErr result (self.new ≡ self.old) }
    {
        if self.slots.reserve(1).is_err() {
            return Err(layer);
        }
        self.list.is_sound();
        match self.list.keep(k, self.slots.vacant_key()) {
            Err(_) => Err(layer),
            Ok(None) => {
                self.slots.insert_reserved(layer);
                Ok(None)
            }
            Ok(Some((last, slot))) => {
                self.slots.insert_reserved(layer);
                let lost = self.slots.try_remove(slot);
                Ok(numbered(last, lost))
            }
        }
    }

    /// The layers under their slots.
    pub fn into_slots(self) -> Slab<L>
        ensures { AreUnder (map (λ e. e.1) self.entries) result }
    {
        self.slots
    }

    /// Hands out what is kept, and does nothing: no layer is there twice, and there are no more
    /// than there is room for.
    pub fn is_sound(&self)
        ensures distinct { IsDistinct nat_eq (keys_of self.now.entries) }
        ensures within { length self.now.entries ≤ self.now.room }
    {
        self.list.is_sound();
    }
}
