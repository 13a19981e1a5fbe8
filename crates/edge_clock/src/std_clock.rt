//! The clock of the system.

use crate::clock::Clock;
use std::time;

/// The clock of the runtime that never goes back. It may tell any number.
///
/// In `main` this is `StdClock::new(&rt)`.
#[derive(Drop)]
pub struct StdClock<'a, R> {
    runtime: &'a R,
}

impl<'a, R: time::Clock> StdClock<'a, R> {
    /// The clock of this runtime.
    pub fn new(runtime: &'a R) -> StdClock<'a, R> {
        StdClock { runtime }
    }
}

/// The nanoseconds of a duration, or the greatest number where they don't fit.
fn nanoseconds(duration: time::Duration) -> u64 {
    let seconds = duration.as_secs().saturating_mul(1_000_000_000);
    seconds.saturating_add(u64::from(duration.subsec_nanos()))
}

impl<'a, R: time::Clock> Clock for StdClock<'a, R> {
    ghost may_tell = { λ _ _. Unit {0} };

    /// The nanoseconds since a start that the system chose. Where its clock fails they are 0.
    fn now(&self) -> u64 {
        match self.runtime.monotonic() {
            Ok(duration) => nanoseconds(duration),
            Err(_) => 0,
        }
    }
}
