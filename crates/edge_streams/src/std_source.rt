//! A source over a reader of the standard library.

ghost use Rattle.std.specs.Prelude.{◌≡◌};

use crate::faults::one_more;
use crate::retry::read_or_error;
use crate::source::{Failed, Source};
use std::io::{Error, Read};

/// A reader as a source. It tells what the reader tells of its bytes. A read that a signal
/// interrupts is made again, at most 16 times.
///
/// Over the standard input this is `StdSource::new(rt.reader())`, over an open file
/// `StdSource::new(fs::open(&rt, path)?)`.
#[derive(Drop)]
pub struct StdSource<R> {
    reader: R,
    /// How many calls failed. At its type's end it stands still.
    faults: u64,
    /// The system's error of the last call that failed.
    error: Option<Error>,
}

impl<R: Read> StdSource<R> {
    /// A source over this reader, with no faults yet.
    pub fn new(reader: R) -> StdSource<R>
        ensures remaining { ⟦<StdSource<R> as Source>⟧.remaining result ≡ R.remaining reader }
        ensures faults { ⟦<StdSource<R> as Source>⟧.faults result ≡ 0 }
    {
        StdSource {
            reader,
            faults: 0,
            error: None,
        }
    }

    /// How many calls failed. At its type's end the count stands still.
    pub fn faults(&self) -> u64
        ensures { ⟦<StdSource<R> as Source>⟧.faults self.now ≡ result }
    {
        self.faults
    }

    /// The system's error of the last call that failed, if one did. No clause says what it is.
    pub fn last_error(&self) -> Option<Error> {
        self.error
    }
}

impl<R: Read> Source for StdSource<R> {
    ghost faults = { λ source. source.faults };

    ghost remaining = { λ source. R.remaining source.reader };

    /// Reads from the reader. Its error is an edge fault.
    fn read(&mut self, buf: &mut [u8]) -> Result<usize, Failed> {
        match read_or_error(&mut self.reader, buf) {
            Ok(taken) => Ok(taken),
            Err(error) => {
                self.error = Some(error);
                self.faults = one_more(self.faults);
                Err(Failed)
            }
        }
    }
}
