//! A clock in memory.

ghost use Rattle.std.specs.Prelude.{◌≡◌, ◌<◌, Contains, length, vec_len};

use crate::clock::Clock;
use std::cell::Cell;
use std::marker::Model;

/// A list of numbers, which are told one after another. After the last one it comes again.
/// A contract sees the list, and not how far the clock is.
#[derive(Drop)]
pub struct MemClock {
    numbers: Vec<u64>,
    /// The place of the number that is told next.
    at: Cell<usize>,
}

impl Model for MemClock {
    ghost use Rattle.std.specs.Prelude.{ℕ, List, ◌<◌, vec_len};

    ghost Value = { List ℕ };

    ghost view = { λ s. s.numbers.items };

    ghost invariant = { λ s. 0 < vec_len s.numbers };
}

impl MemClock {
    /// A clock that tells these numbers, of which there is one at least.
    pub fn new(numbers: Vec<u64>) -> MemClock
        requires { 0 < vec_len numbers }
        ensures { result ≡ numbers.items }
    {
        MemClock {
            numbers,
            at: Cell::new(0),
        }
    }
}

/// The number at this place of some numbers, or the last one where they end before it.
fn number_at(numbers: &[u64], at: usize) -> u64
    requires { 0 < length numbers.now }
    ensures { Contains numbers.now result }
{
    numbers[at.min(numbers.len() - 1)]
}

impl Clock for MemClock {
    ghost may_tell = { λ clock number. Contains clock number };

    /// The next of the numbers, or the last.
    fn now(&self) -> u64 {
        let at = self.at.get();
        self.at.set(at.saturating_add(1));
        number_at(self.numbers.as_slice(), at)
    }
}
