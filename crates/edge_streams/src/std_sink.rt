//! A sink over a writer of the standard library.

ghost use Rattle.std.specs.Prelude.{◌≡◌};

use crate::faults::one_more;
use crate::retry::write_or_error;
use crate::sink::Sink;
use crate::source::Failed;
use std::io::{Error, Write};

/// A writer as a sink. It tells what the writer tells of its bytes. A write that takes none
/// of some bytes is an edge fault. One that a signal interrupts is made again, at most 16
/// times. Nothing is flushed, so the writer should hold nothing back: files, sockets, standard
/// output and standard error hold nothing.
///
/// Over the standard output this is `StdSink::new(io::writer(&rt))`, over the standard
/// error `StdSink::new(rt.stderr())`.
#[derive(Drop)]
pub struct StdSink<W> {
    writer: W,
    /// How many calls failed. At its type's end it stands still.
    faults: u64,
    /// The system's error of the last call that failed.
    error: Option<Error>,
}

impl<W: Write> StdSink<W> {
    /// A sink over this writer, with no faults yet.
    pub fn new(writer: W) -> StdSink<W>
        ensures contents { ⟦<StdSink<W> as Sink>⟧.contents result ≡ W.contents writer }
        ensures faults { ⟦<StdSink<W> as Sink>⟧.faults result ≡ 0 }
    {
        StdSink {
            writer,
            faults: 0,
            error: None,
        }
    }

    /// How many calls failed. At its type's end the count stands still.
    pub fn faults(&self) -> u64
        ensures { ⟦<StdSink<W> as Sink>⟧.faults self.now ≡ result }
    {
        self.faults
    }

    /// The system's error of the last call that failed, if one did. No clause says what it is.
    pub fn last_error(&self) -> Option<Error> {
        self.error
    }
}

impl<W: Write> Sink for StdSink<W> {
    ghost faults = { λ sink. sink.faults };

    ghost contents = { λ sink. W.contents sink.writer };

    /// Writes to the writer. Its error is an edge fault.
    fn write(&mut self, bytes: &[u8]) -> Result<usize, Failed> {
        match write_or_error(&mut self.writer, bytes) {
            Ok(taken) => Ok(taken),
            Err(error) => {
                self.error = Some(error);
                self.faults = one_more(self.faults);
                Err(Failed)
            }
        }
    }
}
