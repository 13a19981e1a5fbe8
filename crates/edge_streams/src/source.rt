//! Bytes that come in.

ghost use Rattle.std.specs.Prelude.{◌≡◌, ◌≢◌, ℕ, ◌<◌, ◌≤◌, ◌+◌, List, [], length, drop};
ghost use Rattle.std.specs.Prelude.{Option, Some, IfSome, vec_len};
ghost use Rattle.std.specs.Prelude.{Ok, IfOk, IsErr, IsErrOf, OnOk, OnErr};
ghost use Rattle.edge_streams.specs.declared.source.ReadFault.TheVariants.{Failed, Memory};
ghost use Rattle.edge_streams.specs.Faults.{Rises};
ghost use Rattle.edge_streams.specs.Content.{Keeps, Reads, TakesAtMost};

use std::alloc::{AllocError, Global};
use thiserror::Error;

/// A call on the outside failed.
#[derive(Clone, Copy, Debug, PartialEq, Eq, Error)]
#[error("a call on the outside failed")]
pub struct Failed;

/// Why a source couldn't be read to its end.
#[derive(Clone, Copy, Debug, PartialEq, Eq, Error)]
pub enum ReadFault {
    /// A read failed, and the source's count of faults rose.
    #[error("a read failed")]
    Failed,
    /// The source has more bytes than the limit.
    #[error("there are more bytes than the limit")]
    TooLong,
    /// Memory ran out.
    #[error("out of memory")]
    Memory,
}

impl From<Failed> for ReadFault {
    ghost from_gives = { λ _ e. e ≡ Failed };

    /// The failure of a read.
    fn from(_: Failed) -> ReadFault {
        ReadFault::Failed
    }
}

impl From<AllocError> for ReadFault {
    ghost from_gives = { λ _ e. e ≡ Memory };

    /// The want of memory for the bytes.
    fn from(_: AllocError) -> ReadFault {
        ReadFault::Memory
    }
}

/// Where bytes come from.
pub trait Source {
    /// How many calls failed.
    ghost faults: { Self → ℕ };

    /// The bytes that are left to read, where the source tells them.
    ghost remaining: { Self → Option (List ℕ) };

    /// Reads the next bytes into the front of `buf` and answers how many they are. With
    /// room in `buf`, 0 is the end of the input. A call that fails takes nothing.
    fn read(&mut self, buf: &mut [u8]) -> Result<usize, Failed>
        ensures within { IfOk result (λ n. n ≤ length buf.new) }
        ensures bytes { IfOk result (λ n.
            Reads n buf.new (remaining self.old) (remaining self.new)) }
        ensures end { result ≡ Ok 0 → 0 < length buf.old →
            IfSome (remaining self.old) (λ left. left ≡ []) }
        ensures err { OnErr result (Keeps (remaining self.old) (remaining self.new)) }
        ensures failed { OnErr result (Rises (faults self.old) (faults self.new)) }
        ensures counted { OnOk result (faults self.new ≡ faults self.old) }
        ensures never_falls { faults self.old ≤ faults self.new };
}

/// How many bytes a read asks for at most.
const CHUNK_BYTES: usize = 4096;

/// Reads the next bytes into the front of `chunk`, at most `room` of them. It is split off
/// so that the proof of `read_all` sees one number in place of a range of a slice.
fn read_piece<S: Source>(source: &mut S, chunk: &mut [u8], room: usize) -> Result<usize, Failed>
    requires some { 0 < room }
    requires within { room ≤ length chunk.old }
    ensures within { IfOk result (λ n. n ≤ room) }
    ensures bytes { IfOk result (λ n.
        Reads n chunk.new (S.remaining source.old) (S.remaining source.new)) }
    ensures end { result ≡ Ok 0 → IfSome (S.remaining source.old) (λ left. left ≡ []) }
    ensures err { OnErr result (Keeps (S.remaining source.old) (S.remaining source.new)) }
    ensures failed { OnErr result (Rises (S.faults source.old) (S.faults source.new)) }
    ensures counted { OnOk result (S.faults source.new ≡ S.faults source.old) }
    ensures never_falls { S.faults source.old ≤ S.faults source.new }
{
    source.read(&mut chunk[..room])
}

/// Reads a source to its end. `limit` is the most bytes that it may have.
pub fn read_all<S: Source>(
    alloc: Global,
    source: &mut S,
    limit: usize,
) -> Result<Vec<u8>, ReadFault>
    ensures within { IfOk result (λ bytes. vec_len bytes ≤ limit) }
    ensures all { IfOk result (λ bytes. IfSome (S.remaining source.old)
        (λ left. (bytes.items ≡ left) × (S.remaining source.new ≡ Some []))) }

    // Exactly one byte more than the limit was taken.
    ensures too_long { IsErrOf result ReadFault.TooLong → IfSome (S.remaining source.old)
        (λ left. (limit < length left)
        × (S.remaining source.new ≡ Some (drop (limit + 1) left))) }
    ensures refused { IfSome (S.remaining source.old) (λ left. limit < length left → IsErr result) }
    ensures failed { IsErrOf result ReadFault.Failed →
        Rises (S.faults source.old) (S.faults source.new)
        × TakesAtMost limit (S.remaining source.old) (S.remaining source.new) }
    ensures memory { IsErrOf result ReadFault.Memory →
        TakesAtMost (limit + 1) (S.remaining source.old) (S.remaining source.new) }
    ensures counted { result ≢ Err ReadFault.Failed → S.faults source.new ≡ S.faults source.old }
    ensures never_falls { S.faults source.old ≤ S.faults source.new }
{
    let mut bytes = Vec::new(alloc);
    let mut chunk = [0; CHUNK_BYTES];
    while bytes.len() <= limit {
        let room = (limit - bytes.len()).min(CHUNK_BYTES - 1) + 1;
        let taken = read_piece(source, &mut chunk, room)?;
        if taken == 0 {
            return Ok(bytes);
        }
        bytes.extend_from_slice(&chunk[..taken])?;
    }
    Err(ReadFault::TooLong)
}
