//! The time.

ghost use Rattle.std.specs.Prelude.{ℕ};

/// What tells the time. It always answers.
pub trait Clock {
    /// The numbers that it may answer.
    ghost may_tell: { Self → ℕ → Type 0 };

    /// The time, in nanoseconds from a start that is the clock's own.
    fn now(&self) -> u64
        ensures { may_tell self.now result };
}
