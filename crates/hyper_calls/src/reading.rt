//! Bytes of a space, read into room that is there already.

ghost use Rattle.std.specs.Prelude.{◌≡◌, ◌≤◌, ◌-◌, ◌++◌, length, take, true};
ghost use Rattle.machine_model.specs.Machine.{range_passes, bytes_at};
ghost use Rattle.space_api.specs.Flat.{is_readable};
ghost use Rattle.hyper_calls.specs.Reading.{Reads};

use space_api::{Access, Space};

/// How bytes of a space are read into room.
#[derive(Clone, Copy, Debug, PartialEq, Eq)]
pub enum Reading {
    /// They are there.
    Done,
    /// They may not be read.
    Refused,
}

/// Fills `buf` with the bytes from `at` on; it is refused where one of them isn't readable.
pub fn read_bytes<S: Space>(space: &mut S, at: u64, buf: &mut [u8]) -> Reading
    requires { S.finished space.old ≡ true }
    ensures reads { let flat = S.flat space.old in
        Reads result (range_passes (is_readable flat) at (length buf.old))
        (buf.new ≡ bytes_at flat.memory at (length buf.old)) (Unit {0}) }
    ensures flat { S.flat space.new ≡ S.flat space.old }
    ensures spares { S.spares space.new ≡ S.spares space.old }
    ensures held { (S.finished space.new ≡ true) × (S.stake space.new ≡ S.stake space.old)
        × (S.span space.new ≡ S.span space.old) }
{
    match space.read_into(at, buf) {
        Ok(()) => Reading::Done,
        Err(Access::Fault { .. }) => Reading::Refused,
        Err(Access::NeedFrames | Access::Memory) => unreachable!("a read takes neither"),
    }
}

/// Fills the part of `bytes` from `from` to `end` so; what stands before it stays.
pub fn read_part<S: Space>(
    space: &mut S,
    at: u64,
    bytes: &mut [u8],
    from: usize,
    end: usize,
) -> Reading
    requires within { (from ≤ end) × (end ≤ length bytes.old) }
    requires finished { S.finished space.old ≡ true }
    ensures reads { let flat = S.flat space.old in
        Reads result (range_passes (is_readable flat) at (end - from))
        (take end bytes.new ≡ take from bytes.old ++ bytes_at flat.memory at (end - from))
        (Unit {0}) }
    ensures before { take from bytes.new ≡ take from bytes.old }
    ensures flat { S.flat space.new ≡ S.flat space.old }
    ensures spares { S.spares space.new ≡ S.spares space.old }
    ensures held { (S.finished space.new ≡ true) × (S.stake space.new ≡ S.stake space.old)
        × (S.span space.new ≡ S.span space.old) }
{
    read_bytes(space, at, &mut bytes[from..end])
}
