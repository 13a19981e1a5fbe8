//! A space.

ghost use Rattle.std.specs.Prelude.{◌≡◌, ◌≢◌, ℕ, ◌+◌, ◌%◌, ◌<◌, ◌≤◌, ◌⊎◌, ◌↔◌, Bool, true, List};
ghost use Rattle.std.specs.Prelude.{length, None, IfOk, OnOk, OnErr, IsOk, Err, MatchBool, IfErr};
ghost use Rattle.machine_model.specs.Hypercall.{packet_limit};
ghost use Rattle.machine_model.specs.Instruction.{instruction_page_fault, load_page_fault};
ghost use Rattle.machine_model.specs.Instruction.{store_page_fault};
ghost use Rattle.machine_model.specs.Machine.{range_passes, least_failing, bytes_at, low_bytes};
ghost use Rattle.space_api.specs.Flat.{Flat, is_readable, is_writable, is_executable, number_at};
ghost use Rattle.space_api.specs.Flat.{after_store};
ghost use Rattle.space_api.specs.Frames.{need, spares_limit, Spent};
ghost use Rattle.space_api.specs.Outcomes.{EndsRead, EndsWrite};

use crate::access::Access;
use crate::held::Held;

/// The memory of one context. Addresses go round at 2^64; each byte of an access is checked
/// before any is read or written, and the fault's address is the least that isn't allowed.
///
/// Only `store` and `write_from` change what a space means, and only where they answer Ok. Each
/// call but `held` needs a finished space and leaves it finished, with its stake and its span.
pub trait Space: Held {
    /// Its bytes, what may be done with its pages, and which were written.
    ghost flat: { Self → Flat };

    /// How many frames it holds to copy pages into, at most 16.
    ghost spares: { Self → ℕ };

    /// Whether its deploy is finished.
    ghost finished: { Self → Bool };

    /// Whether a first write of a page takes frames.
    ghost takes_frames: { Bool };

    /// Whether a write may want memory.
    ghost lacks_memory: { Bool };

    /// The `n` bytes at `at` as a number, the lowest byte first. Each error is a fault.
    fn load(&mut self, at: u64, n: u8) -> Result<u64, Access>
        requires size { (n ≡ 1) ⊎ (n ≡ 2) ⊎ (n ≡ 4) ⊎ (n ≡ 8) }
        requires finished { finished self.old ≡ true }
        ensures value { IfOk result (λ v. v ≡ number_at (flat self.old) at n) }
        ensures ends { EndsRead load_page_fault (least_failing (is_readable
            (flat self.old)) at n) result }
        ensures flat { flat self.new ≡ flat self.old }
        ensures spares { spares self.new ≡ spares self.old }
        ensures held { (finished self.new ≡ true) × (Self.stake self.new ≡ Self.stake self.old)
            × (Self.span self.new ≡ Self.span self.old) };

    /// The low `n` bytes of `v` stand at `at`, the lowest first.
    fn store(&mut self, at: u64, n: u8, v: u64) -> Result<(), Access>
        requires size { (n ≡ 1) ⊎ (n ≡ 2) ⊎ (n ≡ 4) ⊎ (n ≡ 8) }
        requires finished { finished self.old ≡ true }
        ensures stored { OnOk result (flat self.new ≡ after_store (flat self.old) at
            (low_bytes n v)) }
        ensures ends { EndsWrite lacks_memory store_page_fault (least_failing (is_writable
            (flat self.old)) at n) result }
        ensures need { (result ≡ Err Access.NeedFrames)
            ↔ ((least_failing (is_writable (flat self.old)) at n ≡ None)
            × (spares self.old < need takes_frames (flat self.old).written at n)) }
        ensures kept { OnErr result ((flat self.new ≡ flat self.old) ×
            (spares self.new ≡ spares self.old)) }
        ensures spent { Spent takes_frames (spares self.old) (flat self.old).written
            (spares self.new) (flat self.new).written }
        ensures held { (finished self.new ≡ true) × (Self.stake self.new ≡ Self.stake self.old)
            × (Self.span self.new ≡ Self.span self.old) };

    /// The instruction word at `at`, a multiple of 4. Each error is a fault.
    fn fetch(&mut self, at: u64) -> Result<u32, Access>
        requires aligned { at % 4 ≡ 0 }
        requires finished { finished self.old ≡ true }
        ensures value { IfOk result (λ w. w ≡ number_at (flat self.old) at 4) }
        ensures ends { MatchBool (range_passes (is_executable (flat self.old)) at 4)
            (IsOk result) (result ≡ Err (Access.Fault instruction_page_fault at)) }
        ensures flat { flat self.new ≡ flat self.old }
        ensures spares { spares self.new ≡ spares self.old }
        ensures held { (finished self.new ≡ true) × (Self.stake self.new ≡ Self.stake self.old)
            × (Self.span self.new ≡ Self.span self.old) };

    /// Fills `buf` with the bytes from `at` on. Each error is a fault.
    fn read_into(&mut self, at: u64, buf: &mut [u8]) -> Result<(), Access>
        requires finished { finished self.old ≡ true }
        ensures bytes { OnOk result (buf.new ≡ bytes_at (flat self.old).memory at
            (length buf.old)) }
        ensures ends { EndsRead load_page_fault (least_failing (is_readable (flat self.old)) at
            (length buf.old)) result }
        ensures empty { length buf.old ≡ 0 → IsOk result }
        ensures flat { flat self.new ≡ flat self.old }
        ensures spares { spares self.new ≡ spares self.old }
        ensures held { (finished self.new ≡ true) × (Self.stake self.new ≡ Self.stake self.old)
            × (Self.span self.new ≡ Self.span self.old) };

    /// These bytes, at most 32,768, stand from `at` on.
    fn write_from(&mut self, at: u64, bytes: &[u8]) -> Result<(), Access>
        requires short { length bytes.now ≤ packet_limit }
        requires finished { finished self.old ≡ true }
        ensures stored { OnOk result (flat self.new ≡ after_store (flat self.old) at bytes.now) }
        ensures ends { EndsWrite lacks_memory store_page_fault (least_failing (is_writable
            (flat self.old)) at (length bytes.now)) result }
        ensures empty { length bytes.now ≡ 0 → IsOk result }
        ensures need { (result ≡ Err Access.NeedFrames)
            ↔ ((least_failing (is_writable (flat self.old)) at (length bytes.now) ≡ None)
            × (spares self.old
            < need takes_frames (flat self.old).written at (length bytes.now))) }
        ensures kept { OnErr result ((flat self.new ≡ flat self.old) ×
            (spares self.new ≡ spares self.old)) }
        ensures spent { Spent takes_frames (spares self.old) (flat self.old).written
            (spares self.new) (flat self.new).written }
        ensures held { (finished self.new ≡ true) × (Self.stake self.new ≡ Self.stake self.old)
            × (Self.span self.new ≡ Self.span self.old) };

    /// How many spares it holds, at most 16.
    fn held(&self) -> u32
        ensures value { result ≡ spares self.now }
        ensures few { result ≤ spares_limit };

    /// It never holds more spares than that.
    ghost spares_are_few: { (space : Self) → spares space ≤ spares_limit };

    /// One that may run isn't pinned.
    ghost finished_is_free: { (space : Self) → finished space ≡ true → Self.pin space ≡ None };
}
