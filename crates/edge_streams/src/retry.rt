//! Reads and writes of the standard library that are made again where a signal interrupts them.

ghost use Rattle.std.specs.Prelude.{◌≡◌, ◌<◌, ◌≤◌, [], length, take};
ghost use Rattle.std.specs.Prelude.{Ok, IfOk, IfSome, OnErr};
ghost use Rattle.edge_streams.specs.Content.{Adds, Keeps, Reads};

use crate::source::Failed;
use std::io::{Error, ErrorKind, Read, Write};

/// How often a call is made again after a signal interrupted it.
pub const RETRIES: u32 = 16;

/// Whether a call that ended so is to be made again.
fn is_interrupted(error: &Error) -> bool {
    error.kind() == ErrorKind::Interrupted
}

/// One read. It is split off so that the loop of `read_or_error` sees one relation.
fn read_some<R: Read>(reader: &mut R, buf: &mut [u8]) -> Result<usize, Error>
    ensures within { IfOk result (λ n. n ≤ length buf.new) }
    ensures bytes { IfOk result (λ n.
        Reads n buf.new (R.remaining reader.old) (R.remaining reader.new)) }
    ensures end { result ≡ Ok 0 → 0 < length buf.old →
        IfSome (R.remaining reader.old) (λ left. left ≡ []) }
    ensures err { OnErr result (Keeps (R.remaining reader.old) (R.remaining reader.new)) }
{
    match reader.read(buf) {
        Ok(taken) => Ok(taken),
        Err(error) => Err(error),
    }
}

/// One write that takes none of some bytes is an error. It is split off so that the loop of
/// `write_or_error` sees one relation.
fn write_some<W: Write>(writer: &mut W, bytes: &[u8]) -> Result<usize, Error>
    ensures within { IfOk result (λ n. n ≤ length bytes.now) }
    ensures some { IfOk result (λ n. 0 < length bytes.now → 0 < n) }
    ensures taken { IfOk result (λ n.
        Adds (take n bytes.now) (W.contents writer.old) (W.contents writer.new)) }
    ensures err { OnErr result (Keeps (W.contents writer.old) (W.contents writer.new)) }
{
    match writer.write(bytes) {
        Ok(taken) if taken > 0 || bytes.is_empty() => Ok(taken),
        Ok(_) => Err(Error::from(ErrorKind::WriteZero)),
        Err(error) => Err(error),
    }
}

/// Reads once. A read that a signal interrupts is made again, `RETRIES` times at most. The error
/// is the system's, of the last try.
pub fn read_or_error<R: Read>(reader: &mut R, buf: &mut [u8]) -> Result<usize, Error>
    ensures within { IfOk result (λ n. n ≤ length buf.new) }
    ensures bytes { IfOk result (λ n.
        Reads n buf.new (R.remaining reader.old) (R.remaining reader.new)) }
    ensures end { result ≡ Ok 0 → 0 < length buf.old →
        IfSome (R.remaining reader.old) (λ left. left ≡ []) }
    ensures err { OnErr result (Keeps (R.remaining reader.old) (R.remaining reader.new)) }
{
    'tries: for _ in 0..RETRIES {
        match read_some(reader, buf) {
            Ok(taken) => return Ok(taken),
            Err(error) if is_interrupted(&error) => {}
            Err(error) => return Err(error),
        }
    }
    read_some(reader, buf)
}

/// Writes once. A write that a signal interrupts is made again, `RETRIES` times at most. The
/// error is the system's, of the last try; a write that takes none of some bytes is one too.
pub fn write_or_error<W: Write>(writer: &mut W, bytes: &[u8]) -> Result<usize, Error>
    ensures within { IfOk result (λ n. n ≤ length bytes.now) }
    ensures some { IfOk result (λ n. 0 < length bytes.now → 0 < n) }
    ensures taken { IfOk result (λ n.
        Adds (take n bytes.now) (W.contents writer.old) (W.contents writer.new)) }
    ensures err { OnErr result (Keeps (W.contents writer.old) (W.contents writer.new)) }
{
    'tries: for _ in 0..RETRIES {
        match write_some(writer, bytes) {
            Ok(taken) => return Ok(taken),
            Err(error) if is_interrupted(&error) => {}
            Err(error) => return Err(error),
        }
    }
    write_some(writer, bytes)
}

/// Reads once, as `read_or_error` does, and says of an error that the call failed.
pub fn read_again<R: Read>(reader: &mut R, buf: &mut [u8]) -> Result<usize, Failed>
    ensures within { IfOk result (λ n. n ≤ length buf.new) }
    ensures bytes { IfOk result (λ n.
        Reads n buf.new (R.remaining reader.old) (R.remaining reader.new)) }
    ensures end { result ≡ Ok 0 → 0 < length buf.old →
        IfSome (R.remaining reader.old) (λ left. left ≡ []) }
    ensures err { OnErr result (Keeps (R.remaining reader.old) (R.remaining reader.new)) }
{
    match read_or_error(reader, buf) {
        Ok(taken) => Ok(taken),
        Err(_) => Err(Failed),
    }
}

/// Writes once, as `write_or_error` does, and says of an error that the call failed.
pub fn write_again<W: Write>(writer: &mut W, bytes: &[u8]) -> Result<usize, Failed>
    ensures within { IfOk result (λ n. n ≤ length bytes.now) }
    ensures some { IfOk result (λ n. 0 < length bytes.now → 0 < n) }
    ensures taken { IfOk result (λ n.
        Adds (take n bytes.now) (W.contents writer.old) (W.contents writer.new)) }
    ensures err { OnErr result (Keeps (W.contents writer.old) (W.contents writer.new)) }
{
    match write_or_error(writer, bytes) {
        Ok(taken) => Ok(taken),
        Err(_) => Err(Failed),
    }
}
