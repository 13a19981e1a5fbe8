//! Files of the system.

ghost use Rattle.std.specs.Prelude.{◌≡◌, ◌<◌, ◌≤◌, length, vec_len, None};
ghost use Rattle.std.specs.Prelude.{IfOk, IfSome, IsErr, IsErrOf};
ghost use Rattle.edge_streams.specs.Faults.{Rises};

use crate::files::{FileFault, Files, StoreFault};
use edge_streams::{Failed, ReadFault, StdSource, one_more, read_all};
use std::alloc::Global;
use std::io::{Error, ErrorKind, Read};
use std::{fs, rt};

/// The files that the runtime reaches. It doesn't tell their bytes; those that it hands out are the
/// ones that the opened file tells (`read_whole`).
///
/// In `main` this is `StdFiles::new(&rt)`.
#[derive(Drop)]
pub struct StdFiles<'a, R> {
    runtime: &'a R,
    /// How many calls failed. At its type's end it stands still.
    faults: u64,
    /// The system's error of the last call that failed.
    error: Option<Error>,
}

impl<'a, R: rt::Files> StdFiles<'a, R> {
    /// The files of this runtime, with no faults yet.
    pub fn new(runtime: &'a R) -> StdFiles<'a, R>
        ensures contents { ⟦<StdFiles<'a, R> as Files>⟧.contents result ≡ None }
        ensures faults { ⟦<StdFiles<'a, R> as Files>⟧.faults result ≡ 0 }
    {
        StdFiles {
            runtime,
            faults: 0,
            error: None,
        }
    }

    /// How many calls failed. At its type's end the count stands still.
    pub fn faults(&self) -> u64
        ensures { ⟦<StdFiles<'a, R> as Files>⟧.faults self.now ≡ result }
    {
        self.faults
    }

    /// The system's error of the last call that failed, if one did. No clause says what it is.
    pub fn last_error(&self) -> Option<Error> {
        self.error
    }

    /// Counts an edge fault with this error, and answers it.
    fn fail(&mut self, error: Error) -> Failed
        ensures rises { Rises self.old.faults self.new.faults }
        ensures never_falls { self.old.faults ≤ self.new.faults }
    {
        self.error = Some(error);
        self.faults = one_more(self.faults);
        Failed
    }
}

/// Why the bytes of an opened file aren't had.
#[derive(Clone, Copy)]
enum Unread {
    /// A read failed, with the system's error.
    Failed(Error),
    /// There are more than the limit.
    TooBig,
    /// Memory ran out.
    Memory,
}

/// All bytes of a reader that has at most `limit` of them, where it tells them. It is split off so
/// that the bytes of a file have a clause.
///
/// The errors are Failed, where a read failed; TooBig, where there are more; and Memory.
fn read_whole<R: Read + Drop>(alloc: Global, reader: R, limit: u64) -> Result<Vec<u8>, Unread>
    ensures within { IfOk result (λ bytes. vec_len bytes ≤ limit) }
    ensures bytes { IfOk result (λ bytes. IfSome (R.remaining reader) (λ left.
        left ≡ bytes.items)) }
    ensures too_big { IsErrOf result Unread.TooBig → IfSome (R.remaining reader) (λ left.
        limit < length left) }
    ensures refused { IfSome (R.remaining reader) (λ left. limit < length left → IsErr result) }
{
    let mut source = StdSource::new(reader);
    match read_all(alloc, &mut source, limit as usize) {
        Ok(whole) => Ok(whole),
        Err(ReadFault::Failed) => Err(Unread::Failed(error_of(source.last_error()))),
        Err(ReadFault::TooLong) => Err(Unread::TooBig),
        Err(ReadFault::Memory) => Err(Unread::Memory),
    }
}

/// The error that was kept of a failed call. Where none was, one that says nothing.
fn error_of(kept: Option<Error>) -> Error {
    kept.unwrap_or(Error::from(ErrorKind::Other))
}

impl<'a, R: rt::Files> Files for StdFiles<'a, R> {
    ghost faults = { λ files. files.faults };

    ghost contents = { λ _. None };

    /// Opens the file and reads it to its end. An error of either is an edge fault.
    fn read_file(&mut self, alloc: Global, name: &str, limit: u64) -> Result<Vec<u8>, FileFault> {
        let file = match fs::open(self.runtime, name) {
            Ok(file) => file,
            Err(error) => return Err(FileFault::from(self.fail(error))),
        };
        match read_whole(alloc, file, limit) {
            Ok(bytes) => Ok(bytes),
            Err(Unread::Failed(error)) => Err(FileFault::from(self.fail(error))),
            Err(Unread::TooBig) => Err(FileFault::TooBig),
            Err(Unread::Memory) => Err(FileFault::Memory),
        }
    }
    /// Creates the file, or empties it, and writes the bytes. An error is an edge fault.
    fn write_file(&mut self, _alloc: Global, name: &str, bytes: &[u8]) -> Result<(), StoreFault> {
        match fs::write(self.runtime, name, bytes) {
            Ok(()) => Ok(()),
            Err(error) => Err(StoreFault::from(self.fail(error))),
        }
    }
}
