//! Steps that several commands take: the source read to its end, and the output written.

ghost use Rattle.std.specs.Prelude.{◌≡◌, ◌≢◌, ℕ, ◌<◌, ◌≤◌, length, take};
ghost use Rattle.std.specs.Prelude.{Err, IfOk, IfErr, OnOk};
ghost use Rattle.edge_streams.specs.Content.{Adds};
ghost use Rattle.edge_streams.specs.Faults.{Rises};
ghost use Rattle.command_parts.specs.Outside.{see};
ghost use Rattle.command_parts.specs.Sources.{IsInput, RefusesSource};

use crate::refusal::Refusal;
use edge_streams::{ReadFault, Sink, Source, read_all, write_all};
use std::alloc::Global;

/// The source's bytes, no more than `limit`. It is read to its end, or for one byte more than
/// the limit.
///
/// The errors are Size, where there are more; Read, where a read failed; and Memory.
pub fn read_source<C, S: Source>(
    alloc: Global,
    source: &mut S,
    limit: usize,
) -> Result<Vec<u8>, Refusal<C>>
    ensures input { IfOk result (λ bytes. IsInput limit
        (see S.remaining S.faults source.old source.new) bytes.items) }
    ensures refused { IfErr result (RefusesSource limit
        (see S.remaining S.faults source.old source.new)) }
    ensures counted { result ≢ Err Refusal.Read → S.faults source.new ≡ S.faults source.old }
    ensures monotone { S.faults source.old ≤ S.faults source.new }
{
    match read_all(alloc, source, limit) {
        Ok(bytes) => Ok(bytes),
        Err(ReadFault::Failed) => Err(Refusal::Read),
        Err(ReadFault::TooLong) => Err(Refusal::Size),
        Err(ReadFault::Memory) => Err(Refusal::Memory),
    }
}

/// Writes the output. A write that fails leaves a part of it, from the front.
///
/// The only error is Write.
pub fn write_output<C, K: Sink>(sink: &mut K, output: &[u8]) -> Result<(), Refusal<C>>
    ensures written { OnOk result (Adds output.now (K.contents sink.old) (K.contents sink.new)) }
    ensures refused { IfErr result (λ refusal. (refusal ≡ Refusal.Write)
        × Rises (K.faults sink.old) (K.faults sink.new)
        × ((part : ℕ) × (part < length output.now)
        × Adds (take part output.now) (K.contents sink.old) (K.contents sink.new))) }
    ensures counted { OnOk result (K.faults sink.new ≡ K.faults sink.old) }
    ensures monotone { K.faults sink.old ≤ K.faults sink.new }
{
    match write_all(sink, output) {
        Ok(()) => Ok(()),
        Err(_) => Err(Refusal::Write),
    }
}
