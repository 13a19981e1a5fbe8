//! The words of a part.

use crate::problem::Problem;

/// The number that a word spells.
pub fn number(word: &str) -> Result<u64, Problem> {
    match word.parse::<u64>() {
        Ok(number) => Ok(number),
        Err(_) => Err(Problem::Words),
    }
}
