//! A cache under a list that may have no room at all.

ghost use Rattle.std.specs.Prelude.{◌≡◌, ◌-◌, ◌<◌, ◌≤◌, ◌∷◌, length, max, take, None};
ghost use Rattle.std.specs.Prelude.{IfOk, OnOk, OnErr};
ghost use Rattle.std.specs.Map.{lookup};
ghost use Rattle.std.specs.NonZero.{non_zero_usize_get};
ghost use Rattle.cache_lists.specs.Recent.{pushed_out};

use lru::LruCache;
use machine_model::Memory;
use std::hash::Hash;
use std::num::NonZeroUsize;

/// The room of the cache under a list with so much room: a cache has room for at least one
/// entry, also where the list has none.
pub fn cache_room(room: u32) -> NonZeroUsize
    ensures { non_zero_usize_get result ≡ max room 1 }
{
    NonZeroUsize::new(room as usize).unwrap_or(NonZeroUsize::MIN)
}

/// Puts an entry that isn't there to the front of a list with so much room. A full list loses
/// its last entry, which is answered. After `Memory` the list is as it was.
#[tactic(auto, using(crate::proofs::Lru::fits, crate::proofs::Lru::lost, crate::proofs::Lru::puts))]
pub fn push_first<K: Eq + Hash + Drop, V: Drop>(
    cache: &mut LruCache<K, V>,
    room: u32,
    key: K,
    value: V,
) -> Result<Option<(K, V)>, Memory>
    requires cap { cache.old.cap ≡ max room 1 }
    requires some { 0 < room }
    requires within { length cache.old.entries ≤ room }
    requires absent { lookup (K.eq key) cache.old.entries ≡ None }
    ensures lost { IfOk result (λ lost.
        lost ≡ pushed_out (record { room = room; entries = cache.old.entries })) }
    ensures first { OnOk result (cache.new.entries
        ≡ (key, value) ∷ take (room - 1) cache.old.entries) }
    ensures memory { OnErr result (cache.new.entries ≡ cache.old.entries) }
    ensures cap { cache.new.cap ≡ cache.old.cap }
    ensures within { length cache.new.entries ≤ room }
{
    match cache.push(key, value) {
        Ok(lost) => Ok(lost),
        Err(_) => Err(Memory),
    }
}
