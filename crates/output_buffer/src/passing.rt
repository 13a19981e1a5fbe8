//! Bytes on their way through a buffer to a sink.

ghost use Rattle.std.specs.Prelude.{◌≡◌, ◌≤◌, [], OnOk, OnErr};
ghost use Rattle.output_buffer.specs.Sent.{Sends, IsAllWritten, IsAllCut, way};

use crate::buffer::Buffer;
use edge_streams::{Failed, Sink, write_all};

/// Sends bytes behind those that were sent before: they are held back, or written where the
/// buffer has no room for them. Where a write fails, or failed before, nothing goes out any
/// more, and the buffer tells so.
pub fn push<K: Sink>(sink: &mut K, buffer: &mut Buffer, piece: &[u8])
    ensures { Sends piece.now (way K.contents K.faults sink.old buffer.old)
        (way K.contents K.faults sink.new buffer.new) }
{
    if buffer.hold(piece) {
        return;
    }
    empty(sink, buffer);
    if buffer.hold(piece) {
        return;
    }
    send(sink, buffer, piece);
}

/// Writes all that is held back, so that all that was sent is written.
///
/// The error is that a write failed, now or before. A part of what was sent was then written,
/// from the front.
pub fn flush<K: Sink>(sink: &mut K, buffer: &mut Buffer) -> Result<(), Failed>
    ensures written { OnOk result (IsAllWritten (way K.contents K.faults sink.old buffer.old)
        (K.contents sink.new) (K.faults sink.new)) }
    ensures cut { OnErr result (IsAllCut (way K.contents K.faults sink.old buffer.old)
        (K.contents sink.new) (K.faults sink.new)) }
    ensures never_falls { K.faults sink.old ≤ K.faults sink.new }
{
    empty(sink, buffer);
    if buffer.has_failed() {
        Err(Failed)
    } else {
        Ok(())
    }
}

/// Writes all that is held back, where no write failed before.
fn empty<K: Sink>(sink: &mut K, buffer: &mut Buffer)
    ensures same { Sends [] (way K.contents K.faults sink.old buffer.old)
        (way K.contents K.faults sink.new buffer.new) }
    ensures empty { buffer.new.bytes ≡ [] }
    ensures never_falls { K.faults sink.old ≤ K.faults sink.new }
{
    let failed = write_unless_failed(sink, buffer.as_slice(), buffer.has_failed());
    buffer.empty(failed);
}

/// Writes bytes past a buffer that holds nothing, where no write failed before.
fn send<K: Sink>(sink: &mut K, buffer: &mut Buffer, piece: &[u8])
    requires { buffer.old.bytes ≡ [] }
    ensures { Sends piece.now (way K.contents K.faults sink.old buffer.old)
        (way K.contents K.faults sink.new buffer.new) }
{
    let failed = write_unless_failed(sink, piece, buffer.has_failed());
    buffer.empty(failed);
}

/// Writes bytes that are held back, where no write failed before. It answers whether one failed,
/// before or now.
fn write_unless_failed<K: Sink>(sink: &mut K, bytes: &[u8], failed: bool) -> bool
    ensures same { Sends []
        (way K.contents K.faults sink.old (record { bytes = bytes.now; failed = failed }))
        (way K.contents K.faults sink.new (record { bytes = []; failed = result })) }
    ensures never_falls { K.faults sink.old ≤ K.faults sink.new }
{
    if failed {
        return true;
    }
    match write_all(sink, bytes) {
        Ok(()) => false,
        Err(_) => true,
    }
}
