//! Bytes that go out.

ghost use Rattle.std.specs.Prelude.{◌≡◌, ℕ, ◌<◌, ◌≤◌, List, length, take};
ghost use Rattle.std.specs.Prelude.{Option, IfOk, IfErr, OnOk, OnErr};
ghost use Rattle.edge_streams.specs.Faults.{Rises};
ghost use Rattle.edge_streams.specs.Content.{Adds, Keeps};

use crate::source::Failed;
use thiserror::Error;

/// A write was cut short: the sink took only the first `written` bytes.
#[derive(Clone, Copy, Debug, PartialEq, Eq, Error)]
#[error("a write failed after {written} bytes")]
pub struct Cut {
    /// How many bytes went out, fewer than there were.
    pub written: usize,
}

/// Where bytes go.
pub trait Sink {
    /// How many calls failed.
    ghost faults: { Self → ℕ };

    /// All bytes that were written, where the sink tells them.
    ghost contents: { Self → Option (List ℕ) };

    /// Takes bytes from the front of `bytes` and answers how many: at least one where
    /// there are any. A call that fails takes nothing.
    fn write(&mut self, bytes: &[u8]) -> Result<usize, Failed>
        ensures within { IfOk result (λ n. n ≤ length bytes.now) }
        ensures some { IfOk result (λ n. 0 < length bytes.now → 0 < n) }
        ensures taken { IfOk result (λ n.
            Adds (take n bytes.now) (contents self.old) (contents self.new)) }
        ensures err { OnErr result (Keeps (contents self.old) (contents self.new)) }
        ensures failed { OnErr result (Rises (faults self.old) (faults self.new)) }
        ensures counted { OnOk result (faults self.new ≡ faults self.old) }
        ensures never_falls { faults self.old ≤ faults self.new };
}

/// Writes all of the bytes, or tells how many went out before a write failed.
pub fn write_all<K: Sink>(sink: &mut K, bytes: &[u8]) -> Result<(), Cut>
    ensures all { OnOk result (Adds bytes.now (K.contents sink.old) (K.contents sink.new)) }
    ensures cut { IfErr result (λ cut. (cut.written < length bytes.now)
        × Adds (take cut.written bytes.now) (K.contents sink.old) (K.contents sink.new)) }
    ensures failed { OnErr result (Rises (K.faults sink.old) (K.faults sink.new)) }
    ensures counted { OnOk result (K.faults sink.new ≡ K.faults sink.old) }
    ensures never_falls { K.faults sink.old ≤ K.faults sink.new }
{
    let mut written = 0;
    while written < bytes.len() {
        match sink.write(&bytes[written..]) {
            Ok(taken) => written += taken,
            Err(Failed) => return Err(Cut { written }),
        }
    }
    Ok(())
}
