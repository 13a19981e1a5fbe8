//! What a run is given, and how a capture ends.

ghost use Rattle.std.specs.Prelude.{◌≡◌, IfOk};

use machine_model::{Memory, Packet};
use std::alloc::Global;

/// A packet with the clock of the run that it was given to.
#[derive(Debug, Drop)]
pub struct Given {
    /// The packet.
    pub packet: Packet,
    /// What the clock showed in that run, in nanoseconds.
    pub clock: u64,
}

impl Given {
    /// An equal one. The only error is want of memory.
    pub fn copy(&self, alloc: Global) -> Result<Given, Memory>
        ensures { IfOk result (λ given. given ≡ self.now) }
    {
        Ok(Given {
            packet: self.packet.copy(alloc)?,
            clock: self.clock,
        })
    }
}

/// How a capture of a space ends.
#[derive(Debug, Drop)]
pub enum Captured<Z, S> {
    /// The memory that the space had is frozen, and the space goes on above it. So many pages of
    /// the space were written.
    Done { frozen: Z, space: S, pages: u32 },
    /// The space has no spare, and a capture takes one.
    NeedFrames(S),
    /// Memory ran out.
    Memory(S),
}
