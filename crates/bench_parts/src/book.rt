//! Contexts that idle in a book, taken and parked again and again.

use crate::problem::Problem;
use crate::words::number;
use book_rounds::played;
use std::alloc::Global;

/// The most contexts among which takes are spread.
const MOST_SPREAD: u64 = 256;

/// Among how many takes are spread, at most 256.
pub fn spread_of(word: &str) -> Result<u16, Problem> {
    let among = number(word)?;
    if among > MOST_SPREAD {
        return Err(Problem::Words);
    }
    Ok(among as u16)
}

/// Plays so many books whose takes are spread among so many contexts, and answers how many events
/// they have. Where the takes are spread among none, each book is only filled.
pub fn book_part(alloc: Global, spread: &str, books: &str) -> Result<u64, Problem> {
    let among = spread_of(spread)?;
    match played(alloc, among, number(books)?)? {
        Some(events) => Ok(events),
        None => Err(Problem::Words),
    }
}
