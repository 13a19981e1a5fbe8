//! Files for whose bytes there is no memory.

ghost use Rattle.std.specs.Prelude.{ℕ, List, Option, None};

use edge_files::{FileFault, Files, StoreFault};
use std::alloc::Global;

/// Files that want memory for whatever is asked of them, and fail in nothing else.
#[derive(Drop)]
pub struct Scarce;

impl Files for Scarce {
    ghost faults = { λ files. 0 };

    ghost contents = { λ files. None };

    fn read_file(
        &mut self,
        _alloc: Global,
        _name: &str,
        _limit: u64,
    ) -> Result<Vec<u8>, FileFault> {
        Err(FileFault::Memory)
    }

    fn write_file(&mut self, _alloc: Global, _name: &str, _bytes: &[u8]) -> Result<(), StoreFault> {
        Err(StoreFault::Memory)
    }
}
