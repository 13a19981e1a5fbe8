//! A link over a stream of the standard library.

ghost use Rattle.std.specs.Prelude.{◌≡◌, ◌<◌, ◌≤◌, [], length, take};
ghost use Rattle.std.specs.Prelude.{None, Ok, IfSome, IfOk, OnOk, OnErr};
ghost use Rattle.edge_streams.specs.Content.{Adds, Keeps, Reads};
ghost use Rattle.edge_streams.specs.Faults.{Rises};

use crate::link::Link;
use edge_streams::{Failed, one_more, read_again, write_again};
use std::io::{Read, Write};

/// A stream as a link. It tells none of its bytes. A write that takes none of some bytes is an
/// edge fault, and so is a call that comes to its time-out. One that a signal interrupts is
/// made again, at most 16 times.
#[derive(Drop)]
pub struct StdLink<S> {
    stream: S,
    /// How many calls failed. At its type's end it stands still.
    faults: u64,
}

impl<S: Read + Write> StdLink<S> {
    /// A link over this stream, with no faults yet.
    pub fn new(stream: S) -> StdLink<S>
        ensures sent { ⟦<StdLink<S> as Link>⟧.sent result ≡ None }
        ensures faults { ⟦<StdLink<S> as Link>⟧.faults result ≡ 0 }
    {
        StdLink { stream, faults: 0 }
    }

    /// The stream.
    pub fn stream(&self) -> &S
        ensures { result.now ≡ self.now.stream }
    {
        &self.stream
    }

    /// How many calls failed. At its type's end the count stands still.
    pub fn faults(&self) -> u64
        ensures { ⟦<StdLink<S> as Link>⟧.faults self.now ≡ result }
    {
        self.faults
    }
}

impl<S: Read + Write> Link for StdLink<S> {
    ghost faults = { λ link. link.faults };

    ghost held = { λ _. None };

    ghost remaining = { λ _. None };

    ghost sent = { λ _. None };

    /// Reads from the stream, as the stream tells it. Its error is an edge fault.
    fn read(&mut self, buf: &mut [u8]) -> Result<usize, Failed>
        ensures within { IfOk result (λ n. n ≤ length buf.new) }
        ensures bytes { IfOk result (λ n.
            Reads n buf.new (S.remaining self.old.stream) (S.remaining self.new.stream)) }
        ensures end { result ≡ Ok 0 → 0 < length buf.old →
            IfSome (S.remaining self.old.stream) (λ left. left ≡ []) }
        ensures err { OnErr result
            (Keeps (S.remaining self.old.stream) (S.remaining self.new.stream)) }
        ensures failed { OnErr result (Rises self.old.faults self.new.faults) }
        ensures counted { OnOk result (self.new.faults ≡ self.old.faults) }
        ensures never_falls { self.old.faults ≤ self.new.faults }
    {
        match read_again(&mut self.stream, buf) {
            Ok(taken) => Ok(taken),
            Err(Failed) => {
                self.faults = one_more(self.faults);
                Err(Failed)
            }
        }
    }

    /// Writes to the stream, as the stream tells it. Its error is an edge fault.
    fn write(&mut self, bytes: &[u8]) -> Result<usize, Failed>
        ensures within { IfOk result (λ n. n ≤ length bytes.now) }
        ensures some { IfOk result (λ n. 0 < length bytes.now → 0 < n) }
        ensures taken { IfOk result (λ n. Adds (take n bytes.now)
            (S.contents self.old.stream) (S.contents self.new.stream)) }
        ensures err { OnErr result
            (Keeps (S.contents self.old.stream) (S.contents self.new.stream)) }
        ensures failed { OnErr result (Rises self.old.faults self.new.faults) }
        ensures counted { OnOk result (self.new.faults ≡ self.old.faults) }
        ensures never_falls { self.old.faults ≤ self.new.faults }
    {
        match write_again(&mut self.stream, bytes) {
            Ok(taken) => Ok(taken),
            Err(Failed) => {
                self.faults = one_more(self.faults);
                Err(Failed)
            }
        }
    }
}
