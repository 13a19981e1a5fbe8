//! Entries of the kit's cache, taken out and put back again and again, as the idle contexts of a
//! book.

use crate::book::spread_of;
use crate::problem::Problem;
use crate::words::number;
use lru::LruCache;
use std::alloc::Global;
use std::num::NonZeroUsize;

/// How many entries the cache has.
const ENTRIES: u32 = 256;

/// How often an entry is taken out of a cache and put back, as in a book.
const ROUNDS: u16 = 3_840;

/// Fills a cache.
fn fill(cache: &mut LruCache<u32, u64>) -> Result<(), Problem> {
    for key in 0..ENTRIES {
        cache.put(key, 0).map_err(|_| Problem::Memory)?;
    }
    Ok(())
}

/// Takes entries out and puts them back, one after another of so many; none where they are 0.
/// Answers how many there were.
fn spread(cache: &mut LruCache<u32, u64>, among: u16) -> Result<u64, Problem> {
    let mut taken = 0_u64;
    for round in 0..ROUNDS {
        let Some(place) = round.checked_rem(among) else {
            return Ok(taken);
        };
        let Some((key, value)) = cache.pop_entry(&u32::from(place)) else {
            return Ok(taken);
        };
        cache
            .put(key, value.wrapping_add(1))
            .map_err(|_| Problem::Memory)?;
        taken = taken.saturating_add(1);
    }
    Ok(taken)
}

/// Fills so many caches, and takes entries out of each and puts them back, spread among so many.
/// Answers how often.
pub fn lru_part(alloc: Global, spread_among: &str, caches: &str) -> Result<u64, Problem> {
    let among = spread_of(spread_among)?;
    let mut taken = 0_u64;
    for _ in 0..number(caches)? {
        let Some(room) = NonZeroUsize::new(ENTRIES as usize) else {
            return Err(Problem::Words);
        };
        let mut cache = LruCache::new(alloc, room)?;
        fill(&mut cache)?;
        taken = taken.saturating_add(spread(&mut cache, among)?);
    }
    Ok(taken)
}
