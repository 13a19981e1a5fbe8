//! The layers that are kept.

ghost use Rattle.std.specs.Prelude.{◌≡◌, ◌<◌, ◌≤◌, nat_eq, [], length};
ghost use Rattle.std.specs.Prelude.{None, option_map, IfOk, OnOk, OnErr};
ghost use Rattle.std.specs.List.{IsDistinct};
ghost use Rattle.std.specs.Map.{keys_of, lookup, remove_entry};
ghost use Rattle.lru.specs.LruCache.{promoted};
ghost use Rattle.cache_lists.specs.Recent.{is_full, last_of, pushed_out, with_first, with_entries};

use crate::room::{cache_room, push_first};
use lru::LruCache;
use machine_model::Memory;
use std::alloc::Global;
use std::marker::Model;

/// Kept layers by their numbers, the most recently used first, each with its slot. The list has
/// room for so many; one with no room stays empty.
#[derive(Drop)]
pub struct LayerList {
    cache: LruCache<u16, usize>,
    room: u32,
}

impl Model for LayerList {
    ghost use Rattle.std.specs.Prelude.{◌≡◌, ℕ, ◌≤◌, length, max};
    ghost use Rattle.cache_lists.specs.Recent.{Recent};

    ghost Value = { Recent ℕ ℕ };

    ghost view = { λ l. record { room = l.room; entries = l.cache.entries } };

    ghost invariant = { λ l.
        (l.cache.cap ≡ max l.room 1) × (length l.cache.entries ≤ l.room) };
}

impl LayerList {
    /// An empty list with room for so many layers. `Memory` where there is too little of it.
    pub fn open(alloc: Global, cap: u32) -> Result<LayerList, Memory>
        ensures { IfOk result (λ list. list ≡ record { room = cap; entries = [] }) }
    {
        let cache = LruCache::new(alloc, cache_room(cap))?;
        Ok(LayerList { cache, room: cap })
    }

    /// Puts a layer that isn't in the list to its front. A full list loses its last one, whose
    /// number and slot are answered; none is answered exactly where the list wasn't full.
    ///
    /// After `Memory` the list is as it was.
    pub fn keep(&mut self, k: u16, slot: usize) -> Result<Option<(u16, usize)>, Memory>
        requires room { 0 < self.old.room }
        requires absent { lookup (nat_eq k) self.old.entries ≡ None }
        ensures lost { IfOk result (λ lost. lost ≡ pushed_out self.old) }
        ensures kept { OnOk result (self.new ≡ with_first k slot self.old) }
        ensures memory { OnErr result (self.new ≡ self.old) }
    {
        push_first(&mut self.cache, self.room, k, slot)
    }

    /// Brings the layer to the front and answers its slot; none where it isn't in the list.
    #[tactic(auto, using(crate::proofs::Lru::promoted_fits))]
    pub fn touch(&mut self, k: u16) -> Option<usize>
        ensures slot { result ≡ lookup (nat_eq k) self.old.entries }
        ensures touched { self.new ≡ with_entries (promoted (nat_eq k) self.old.entries) self.old }
    {
        let slot = self.find(k);
        self.cache.promote(&k);
        slot
    }

    /// The slot of the layer, and the order stays; none where it isn't in the list.
    pub fn find(&self, k: u16) -> Option<usize>
        ensures { result ≡ lookup (nat_eq k) self.now.entries }
    {
        self.cache.peek(&k).copied()
    }

    /// Takes the layer out and answers its slot; none where it isn't in the list.
    #[tactic(auto, using(crate::proofs::Lru::fewer))]
    pub fn remove(&mut self, k: u16) -> Option<usize>
        ensures slot { result ≡ lookup (nat_eq k) self.old.entries }
        ensures removed { self.new
            ≡ with_entries (remove_entry (nat_eq k) self.old.entries) self.old }
    {
        self.cache.pop(&k)
    }

    /// The layer that was used longest ago; none where the list is empty.
    pub fn last(&self) -> Option<u16>
        ensures { result ≡ option_map (λ e. e.0) (last_of self.now) }
    {
        self.cache.peek_lru().map(|(k, _)| *k)
    }

    /// Whether there is no room for a further layer.
    pub fn is_full(&self) -> bool
        ensures { result ≡ is_full self.now }
    {
        self.cache.len() == self.room as usize
    }

    /// Hands out what the list keeps, and does nothing: no layer is in it twice, and there are no
    /// more than it has room for.
    pub fn is_sound(&self)
        ensures distinct { IsDistinct nat_eq (keys_of self.now.entries) }
        ensures within { length self.now.entries ≤ self.now.room }
    {
        let _count = self.cache.len();
    }
}
