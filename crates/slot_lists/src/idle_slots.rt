//! Idle contexts.

ghost use Rattle.std.specs.Prelude.{◌≡◌, ◌<◌, ◌≤◌, nat_eq, [], length, map};
ghost use Rattle.std.specs.Prelude.{None, option_map, IfOk, OnOk, IfErr, OnErr};
ghost use Rattle.std.specs.List.{IsDistinct};
ghost use Rattle.std.specs.Map.{keys_of, lookup, remove_entry};
ghost use Rattle.cache_lists.specs.Recent.{is_full, last_of, pushed_out, with_first, with_entries};
ghost use Rattle.slot_lists.specs.Held.{AreUnder};
ghost use Rattle.slot_lists.specs.Lists.{waiting_of, first_waiting, context_of};

use crate::numbers::numbered;
use cache_lists::IdleList;
use machine_model::Memory;
use slab::Slab;
use std::alloc::Global;
use std::marker::Model;

/// Idle contexts by their numbers, the most recently parked first. There is room for so many.
#[derive(Drop)]
pub struct IdleSlots<C> {
    list: IdleList,
    slots: Slab<C>,
}

impl<C> Model for IdleSlots<C> {
    ghost use Rattle.std.specs.Prelude.{ℕ};
    ghost use Rattle.cache_lists.specs.Recent.{Recent};
    ghost use Rattle.slot_lists.specs.Held.{AreHeld, idle_slot, held_contexts};
    ghost use Rattle.slot_lists.specs.Lists.{Waiting};

    ghost Value = { Recent ℕ (Waiting C) };

    ghost view = { λ l. record {
      room = l.list.room;
      entries = held_contexts l.slots.slots l.list.entries;
    } };

    ghost invariant = { λ l. AreHeld idle_slot l.slots.slots l.list.entries };
}

impl<C> IdleSlots<C> {
    /// No contexts, with room for so many. `Memory` where there is too little of it.
    pub fn open(alloc: Global, room: u32) -> Result<IdleSlots<C>, Memory>
        ensures { IfOk result (λ idle. idle ≡ record { room = room; entries = [] }) }
    {
        let list = IdleList::open(alloc, room)?;
        let slots = Slab::new(alloc);
        Ok(IdleSlots { list, slots })
    }

    /// The context of the function that was parked last; none where there is none.
    pub fn find(&self, function: u16) -> Option<u32>
        ensures { result ≡ first_waiting function self.now.entries }
    {
        self.list.find(function)
    }

    /// Whether there is no room for a further context.
    pub fn is_full(&self) -> bool
        ensures { result ≡ is_full self.now }
    {
        self.list.is_full()
    }

    /// The context that was parked first of all; none where there is none.
    pub fn last(&self) -> Option<u32>
        ensures { result ≡ option_map (λ e. e.0) (last_of self.now) }
    {
        self.list.last()
    }

    /// Takes a context out; none where it isn't there.
    pub fn take(&mut self, id: u32) -> Option<C>
        ensures taken { result
            ≡ option_map (λ e. e.context) (lookup (nat_eq id) self.old.entries) }
        ensures rest { self.new
            ≡ with_entries (remove_entry (nat_eq id) self.old.entries) self.old }
    {
        match self.list.remove(id) {
            Some(slot) => self.slots.try_remove(slot),
            None => None,
        }
    }

    /// Puts a context that isn't there to the front. Where there is no room the last one goes,
    /// which is answered with its number; none is answered exactly where there was room. The only
    /// error is want of memory: it hands the context back, and nothing changed.
    pub fn park(&mut self, id: u32, function: u16, context: C) -> Result<Option<(u32, C)>, C>
        requires room { 0 < self.old.room }
        requires absent { lookup (nat_eq id) self.old.entries ≡ None }
        ensures lost { IfOk result (λ lost. lost ≡ option_map context_of (pushed_out self.old)) }
        ensures parked { OnOk result (self.new
            ≡ with_first id (waiting_of function context) self.old) }
        ensures back { IfErr result (λ given. given ≡ context) }
        ensures memory { OnErr result (self.new ≡ self.old) }
    {
        if self.slots.reserve(1).is_err() {
            return Err(context);
        }
        self.list.is_sound();
        match self.list.park(id, function, self.slots.vacant_key()) {
            Err(_) => Err(context),
            Ok(None) => {
                self.slots.insert_reserved(context);
                Ok(None)
            }
            Ok(Some((last, slot))) => {
                self.slots.insert_reserved(context);
                let lost = self.slots.try_remove(slot);
                Ok(numbered(last, lost))
            }
        }
    }

    /// The contexts under their slots.
    pub fn into_slots(self) -> Slab<C>
        ensures { AreUnder (map (λ e. e.1.context) self.entries) result }
    {
        self.slots
    }

    /// Hands out what is kept, and does nothing: no context is there twice, and there are no more
    /// than there is room for.
    pub fn is_sound(&self)
        ensures distinct { IsDistinct nat_eq (keys_of self.now.entries) }
        ensures within { length self.now.entries ≤ self.now.room }
    {
        self.list.is_sound();
    }
}
