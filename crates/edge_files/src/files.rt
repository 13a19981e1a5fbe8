//! Files by their names.

ghost use Rattle.std.specs.Prelude.{◌≡◌, ◌≢◌, ℕ, ◌<◌, ◌≤◌, List, length, vec_len};
ghost use Rattle.std.specs.Prelude.{Option, Some, None, IfSome, IsSomeAnd};
ghost use Rattle.std.specs.Prelude.{IfOk, IsErr, IsErrOf, OnOk};
ghost use Rattle.edge_files.specs.declared.files.FileFault.TheVariants.{Failed, Memory};
ghost use Rattle.edge_streams.specs.Faults.{Rises};
ghost use Rattle.edge_files.specs.Stores.{Stores, KeepsOthers};

use edge_streams::Failed;
use std::alloc::{AllocError, Global};
use thiserror::Error;

/// Why a file couldn't be read.
#[derive(Clone, Copy, Debug, PartialEq, Eq, Error)]
pub enum FileFault {
    /// The file couldn't be opened or read, and the count of faults rose.
    #[error("the file couldn't be opened or read")]
    Failed,
    /// The file has more bytes than the limit.
    #[error("the file has more bytes than the limit")]
    TooBig,
    /// Memory ran out.
    #[error("out of memory")]
    Memory,
}

impl From<Failed> for FileFault {
    ghost from_gives = { λ _ e. e ≡ Failed };

    /// The failure of a call on the file.
    fn from(_: Failed) -> FileFault {
        FileFault::Failed
    }
}

impl From<AllocError> for FileFault {
    ghost from_gives = { λ _ e. e ≡ Memory };

    /// The want of memory for the bytes.
    fn from(_: AllocError) -> FileFault {
        FileFault::Memory
    }
}

/// Why a file couldn't be written. Nothing is said of the file then.
#[derive(Clone, Copy, Debug, PartialEq, Eq, Error)]
pub enum StoreFault {
    /// The file couldn't be written, and the count of faults rose.
    #[error("the file couldn't be written")]
    Failed,
    /// Memory ran out.
    #[error("out of memory")]
    Memory,
}

impl From<Failed> for StoreFault {
    ghost use Rattle.edge_files.specs.declared.files.StoreFault.TheVariants.{Failed as failed};

    ghost from_gives = { λ _ e. e ≡ failed };

    /// The failure of a call on the file.
    fn from(_: Failed) -> StoreFault {
        StoreFault::Failed
    }
}

impl From<AllocError> for StoreFault {
    ghost use Rattle.edge_files.specs.declared.files.StoreFault.TheVariants.{Memory as memory};

    ghost from_gives = { λ _ e. e ≡ memory };

    /// The want of memory for the name or the bytes.
    fn from(_: AllocError) -> StoreFault {
        StoreFault::Memory
    }
}

/// Files that are read and written whole.
pub trait Files {
    /// How many calls failed.
    ghost faults: { Self → ℕ };

    /// What they hold, where they tell it: for each name the bytes of its file, or `None`
    /// where there is no such file.
    ghost contents: { Self → Option (List ℕ → Option (List ℕ)) };

    /// The bytes of a file that has at most `limit` of them. No file changes.
    fn read_file(&mut self, alloc: Global, name: &str, limit: u64) -> Result<Vec<u8>, FileFault>
        ensures within { IfOk result (λ bytes. vec_len bytes ≤ limit) }
        ensures bytes { IfOk result (λ bytes. IfSome (contents self.old)
            (λ file_of. file_of name.now ≡ Some bytes.items)) }
        ensures too_big { IsErrOf result FileFault.TooBig → IfSome (contents self.old)
            (λ file_of. IsSomeAnd (file_of name.now) (λ file. limit < length file)) }
        ensures refused { IfSome (contents self.old) (λ file_of. IfSome (file_of name.now)
            (λ file. limit < length file → IsErr result)) }
        ensures missing { IfSome (contents self.old) (λ file_of.
            file_of name.now ≡ None → result ≡ Err FileFault.Failed) }
        ensures failed { IsErrOf result FileFault.Failed →
            Rises (faults self.old) (faults self.new) }
        ensures counted { result ≢ Err FileFault.Failed → faults self.new ≡ faults self.old }
        ensures never_falls { faults self.old ≤ faults self.new }
        ensures unchanged { contents self.new ≡ contents self.old };

    /// Makes a file hold these bytes and no others. Every other file stays as it was, whatever
    /// the answer.
    fn write_file(&mut self, alloc: Global, name: &str, bytes: &[u8]) -> Result<(), StoreFault>
        ensures written { OnOk result
            (Stores name.now bytes.now (contents self.old) (contents self.new)) }
        ensures others { KeepsOthers name.now (contents self.old) (contents self.new) }
        ensures failed { IsErrOf result StoreFault.Failed →
            Rises (faults self.old) (faults self.new) }
        ensures counted { result ≢ Err StoreFault.Failed → faults self.new ≡ faults self.old }
        ensures never_falls { faults self.old ≤ faults self.new };
}
