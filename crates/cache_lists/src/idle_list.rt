//! The idle contexts.

ghost use Rattle.std.specs.Prelude.{◌≡◌, ◌<◌, ◌≤◌, nat_eq, [], length};
ghost use Rattle.std.specs.Prelude.{None, option_map, IfOk, OnOk, OnErr};
ghost use Rattle.std.specs.List.{IsDistinct};
ghost use Rattle.std.specs.Map.{keys_of, lookup, remove_entry};
ghost use Rattle.cache_lists.specs.Recent.{is_full, last_of, pushed_out, with_first, with_entries};
ghost use Rattle.cache_lists.specs.Idle.{first_of, slot_of};
ghost use Rattle.cache_lists.specs.declared.idle_list.IdleContext.{IdleContext as Idle};

use crate::room::{cache_room, push_first};
use lru::LruCache;
use machine_model::Memory;
use std::alloc::Global;
use std::marker::Model;

/// What the list notes of an idle context.
#[derive(Clone, Copy, Debug, PartialEq, Eq)]
pub struct IdleContext {
    /// The number of its function.
    pub function: u16,
    /// Where its owner keeps it.
    pub slot: usize,
}

/// Idle contexts by their numbers, the most recently parked first. It has room for so many; one
/// with no room stays empty.
#[derive(Drop)]
pub struct IdleList {
    cache: LruCache<u32, IdleContext>,
    room: u32,
}

impl Model for IdleList {
    ghost use Rattle.std.specs.Prelude.{◌≡◌, ℕ, ◌≤◌, length, max};
    ghost use Rattle.cache_lists.specs.Recent.{Recent};
    ghost use Rattle.cache_lists.specs.declared.idle_list.IdleContext.{IdleContext as Idle};

    ghost Value = { Recent ℕ Idle };

    ghost view = { λ l. record { room = l.room; entries = l.cache.entries } };

    ghost invariant = { λ l.
        (l.cache.cap ≡ max l.room 1) × (length l.cache.entries ≤ l.room) };
}

impl IdleList {
    /// An empty list with room for so many contexts. `Memory` where there is too little of it.
    pub fn open(alloc: Global, cap: u32) -> Result<IdleList, Memory>
        ensures { IfOk result (λ list. list ≡ record { room = cap; entries = [] }) }
    {
        let cache = LruCache::new(alloc, cache_room(cap))?;
        Ok(IdleList { cache, room: cap })
    }

    /// Puts a context that isn't in the list to its front. A full list loses its last one, whose
    /// number and slot are answered; none is answered exactly where the list wasn't full.
    ///
    /// After `Memory` the list is as it was.
    pub fn park(
        &mut self,
        id: u32,
        function: u16,
        slot: usize,
    ) -> Result<Option<(u32, usize)>, Memory>
        requires room { 0 < self.old.room }
        requires absent { lookup (nat_eq id) self.old.entries ≡ None }
        ensures lost { IfOk result (λ lost. lost ≡ option_map slot_of (pushed_out self.old)) }
        ensures parked { OnOk result (self.new
            ≡ with_first id (record { function = function; slot = slot }) self.old) }
        ensures memory { OnErr result (self.new ≡ self.old) }
    {
        let context = IdleContext { function, slot };
        let lost = push_first(&mut self.cache, self.room, id, context)?;
        Ok(lost.map(|(id, context)| (id, context.slot)))
    }

    /// The context of the function that was parked last; none where there is none.
    pub fn find(&self, function: u16) -> Option<u32>
        ensures { result ≡ first_of function self.now.entries }
    {
        'contexts: for (id, context) in self.cache.iter() {
            if context.function == function {
                return Some(*id);
            }
        }
        None
    }

    /// Takes the context out and answers its slot; none where it isn't in the list.
    #[tactic(auto, using(crate::proofs::Lru::fewer))]
    pub fn remove(&mut self, id: u32) -> Option<usize>
        ensures slot { result ≡ option_map (λ c. c.slot) (lookup (nat_eq id) self.old.entries) }
        ensures removed { self.new
            ≡ with_entries (remove_entry (nat_eq id) self.old.entries) self.old }
    {
        self.cache.pop(&id).map(|context| context.slot)
    }

    /// The context that was parked first of all; none where the list is empty.
    pub fn last(&self) -> Option<u32>
        ensures { result ≡ option_map (λ e. e.0) (last_of self.now) }
    {
        self.cache.peek_lru().map(|(id, _)| *id)
    }

    /// Whether there is no room for a further context.
    pub fn is_full(&self) -> bool
        ensures { result ≡ is_full self.now }
    {
        self.cache.len() == self.room as usize
    }

    /// Hands out what the list keeps, and does nothing: no context is in it twice, and there are no
    /// more than it has room for.
    pub fn is_sound(&self)
        ensures distinct { IsDistinct nat_eq (keys_of self.now.entries) }
        ensures within { length self.now.entries ≤ self.now.room }
    {
        let _count = self.cache.len();
    }
}
