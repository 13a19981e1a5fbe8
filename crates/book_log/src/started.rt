//! Requests that were started.

ghost use Rattle.std.specs.Prelude.{◌≡◌, IfOk};

use machine_model::Memory;
use space_api::Given;
use std::alloc::Global;

/// A request that was started: its function, its packet, and what the clock showed.
#[derive(Debug, Drop)]
pub struct Started {
    /// The number of its function.
    pub function: u16,
    /// Its packet and its clock.
    pub given: Given,
}

impl Started {
    /// An equal one. The only error is want of memory.
    pub fn copy(&self, alloc: Global) -> Result<Started, Memory>
        ensures { IfOk result (λ copy. copy ≡ self.now) }
    {
        Ok(Started {
            function: self.function,
            given: self.given.copy(alloc)?,
        })
    }
}
