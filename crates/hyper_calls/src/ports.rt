//! What a run takes in and writes.

ghost use Rattle.std.specs.Prelude.{◌≡◌, ℕ, ◌+◌, ◌<◌, ◌≤◌, if◌then◌else◌, ◌∷◌, ◌++◌, []};
ghost use Rattle.std.specs.Prelude.{length, drop, sum, sum_by, slice_index_or, nat_le, nat_lt};
ghost use Rattle.std.specs.Prelude.{◌&&◌, not, true, false, OnOk, OnErr, IfOk};
ghost use Rattle.machine_model.specs.Hypercall.{packet_limit, sent_limit, sent_bytes_limit};
ghost use Rattle.machine_model.specs.Hypercall.{console_limit};
ghost use Rattle.machine_model.specs.Machine.{range_passes, bytes_at};
ghost use Rattle.machine_model.specs.Run.{is_empty};
ghost use Rattle.space_api.specs.Flat.{is_readable};
ghost use Rattle.hyper_calls.specs.Exchange.{Exchange, starting, pieces};

use crate::reading::{Reading, read_part};
use machine_model::{Memory, PACKET_LIMIT, Packet};
use space_api::Space;
use std::alloc::Global;
use std::marker::Model;

/// The most packets that a run may write.
pub const SENT_LIMIT: usize = 64;

/// The most bytes of those packets together.
pub const SENT_BYTES_LIMIT: usize = 65_536;

/// The most console bytes that a run may write.
pub const CONSOLE_LIMIT: usize = 4096;

/// The packets that a run was given and what it wrote. It holds the room for all that a run may
/// write, so that no hypercall takes memory.
///
/// Contracts see the clock and the packets and console bytes.
#[derive(Drop)]
pub struct Ports {
    /// What the clock shows, in nanoseconds.
    clock: u64,
    /// The packets that the run was given.
    given: Vec<Packet>,
    /// How many of them were read.
    read: usize,
    /// The sizes of the packets that were written, and how many these are.
    sizes: [usize; SENT_LIMIT],
    count: usize,
    /// Their bytes one after another, and how many these are.
    bytes: Vec<u8>,
    used: usize,
    /// The console bytes, and how many these are.
    text: Vec<u8>,
    shown: usize,
}

impl Model for Ports {
    ghost use Rattle.std.specs.Prelude.{take, drop};
    ghost use Rattle.std.specs.Vec.{vec_len};
    ghost use Rattle.hyper_calls.specs.Exchange.{Exchange, pieces, FitsRooms};

    ghost Value = { Exchange };

    ghost view = { λ p. record {
      clock = p.clock;
      traffic = record {
        queue = drop p.read p.given.items;
        sent = pieces (take p.count p.sizes) p.bytes.items;
        console = take p.shown p.text.items;
      };
    } };

    ghost invariant = { λ p.
        FitsRooms (vec_len p.given) p.read p.sizes p.count p.used (vec_len p.bytes) p.shown
        (vec_len p.text) };
}

/// Copies packets to the end of a list that is empty.
fn copy_packets(alloc: Global, packets: &[Packet], to: &mut Vec<Packet>) -> Result<(), Memory>
    requires { to.old.items ≡ [] }
    ensures ok { OnOk result (to.new.items ≡ packets.now) }
{
    for packet in packets {
        let copy = packet.copy(alloc)?;
        if to.push(copy).is_err() {
            return Err(Memory);
        }
    }
    Ok(())
}

/// The n-th of the pieces of these sizes.
fn piece<'a>(sizes: &[usize], bytes: &'a [u8], n: usize) -> &'a [u8]
    requires within { n < length sizes.now }
    requires fits { sum sizes.now ≤ length bytes.now }
    ensures { result.now ≡ slice_index_or (pieces sizes.now bytes.now) n [] }
{
    match sizes {
        [] => bytes,
        [first, rest @ ..] => {
            if n == 0 {
                &bytes[..*first]
            } else {
                piece(rest, &bytes[*first..], n - 1)
            }
        }
    }
}

/// Whether so many console bytes may be written after those that were.
fn fits_console(size: u64, shown: usize) -> bool
    requires { shown ≤ console_limit }
    ensures value { result ≡ (nat_le size console_limit && nat_le (shown + size) console_limit) }
    ensures room { result ≡ true → shown + size ≤ console_limit }
{
    size <= CONSOLE_LIMIT as u64 && shown as u64 + size <= CONSOLE_LIMIT as u64
}

/// Whether a packet of so many bytes may be written after so many packets and bytes.
fn fits_net(size: u64, count: usize, used: usize) -> bool
    requires { used ≤ sent_bytes_limit }
    ensures value { result ≡ (nat_le size packet_limit && nat_lt count sent_limit
        && nat_le (used + size) sent_bytes_limit) }
    ensures room { result ≡ true → (count < sent_limit) × (used + size ≤ sent_bytes_limit) }
{
    size <= PACKET_LIMIT as u64
        && count < SENT_LIMIT
        && used as u64 + size <= SENT_BYTES_LIMIT as u64
}

impl Ports {
    ghost use Rattle.hyper_calls.specs.Reading.{Reads};

    /// Takes the room for all that one run writes. Nothing is queued or written.
    pub fn open(alloc: Global, clock: u64) -> Result<Ports, Memory>
        ensures { IfOk result (λ ports. ports ≡ starting clock []) }
    {
        Ok(Ports {
            clock,
            given: Vec::new(alloc),
            read: 0,
            sizes: [0; SENT_LIMIT],
            count: 0,
            bytes: vec![in alloc; 0; SENT_BYTES_LIMIT]?,
            used: 0,
            text: vec![in alloc; 0; CONSOLE_LIMIT]?,
            shown: 0,
        })
    }

    /// Begins a run: these packets are queued, and nothing is written. After `Memory` all is
    /// empty.
    pub fn begin(&mut self, alloc: Global, packets: &[Packet], clock: u64) -> Result<(), Memory>
        ensures ok { OnOk result (self.new ≡ starting clock packets.now) }
        ensures err { OnErr result (self.new ≡ starting clock []) }
    {
        self.clock = clock;
        self.given.clear(); // with those that weren't read
        self.read = 0;
        self.count = 0;
        self.used = 0;
        self.shown = 0;
        match copy_packets(alloc, packets, &mut self.given) {
            Ok(()) => Ok(()),
            Err(error) => {
                self.given.clear();
                Err(error)
            }
        }
    }

    /// What the clock shows, in nanoseconds.
    #[inline]
    pub fn clock(&self) -> u64
        ensures { result ≡ self.now.clock }
    {
        self.clock
    }

    /// Whether a packet is queued.
    #[inline]
    pub fn is_queued(&self) -> bool
        ensures { result ≡ not (is_empty self.now.traffic.queue) }
    {
        self.read < self.given.len()
    }

    /// How many packets were written.
    pub fn sent(&self) -> usize
        ensures { result ≡ length self.now.traffic.sent }
    {
        self.count
    }

    /// The bytes of the n-th packet that was written, the oldest first.
    pub fn packet(&self, n: usize) -> &[u8]
        requires { n < length self.now.traffic.sent }
        ensures { result.now ≡ slice_index_or self.now.traffic.sent n [] }
    {
        piece(&self.sizes[..self.count], &self.bytes, n)
    }

    /// The console bytes.
    pub fn console(&self) -> &[u8]
        ensures { result.now ≡ self.now.traffic.console }
    {
        &self.text[..self.shown]
    }

    /// The next packet that is queued, at most 32,768 bytes.
    pub fn next(&self) -> &[u8]
        requires { is_empty self.now.traffic.queue ≡ false }
        ensures queue { self.now.traffic.queue ≡ result.now ∷ drop 1 self.now.traffic.queue }
        ensures size { length result.now ≤ packet_limit }
    {
        self.given[self.read].bytes()
    }

    /// Takes the next packet from the queue.
    pub fn advance(&mut self)
        requires { is_empty self.old.traffic.queue ≡ false }
        ensures { self.new ≡ record (self.old) {
          traffic = record (self.old.traffic) { queue = drop 1 self.old.traffic.queue };
        } }
    {
        self.read += 1;
    }

    /// Writes `size` bytes of a space, from `at` on, to the console. It is refused where they are
    /// too many, or one of them isn't readable.
    pub fn write_console<S: Space>(&mut self, space: &mut S, at: u64, size: u64) -> Reading
        requires { S.finished space.old ≡ true }
        ensures reads { let flat = S.flat space.old in let old = self.old.traffic in
            Reads result (nat_le size console_limit
            && nat_le (length old.console + size) console_limit
            && range_passes (is_readable flat) at size)
            (self.new ≡ record (self.old) {
              traffic = record old { console = old.console ++ bytes_at flat.memory at size };
            })
            (self.new ≡ self.old) }
        ensures flat { S.flat space.new ≡ S.flat space.old }
        ensures spares { S.spares space.new ≡ S.spares space.old }
        ensures held { (S.finished space.new ≡ true) × (S.stake space.new ≡ S.stake space.old)
            × (S.span space.new ≡ S.span space.old) }
    {
        if !fits_console(size, self.shown) {
            return Reading::Refused;
        }
        let end = self.shown + size as usize;
        match read_part(space, at, &mut self.text, self.shown, end) {
            Reading::Done => {
                self.shown = end;
                Reading::Done
            }
            Reading::Refused => Reading::Refused,
        }
    }

    /// Writes a packet, `size` bytes of a space from `at` on. It is refused where it is too long,
    /// there are too many packets or bytes of them, or one byte isn't readable.
    pub fn write_packet<S: Space>(&mut self, space: &mut S, at: u64, size: u64) -> Reading
        requires { S.finished space.old ≡ true }
        ensures reads { let flat = S.flat space.old in let old = self.old.traffic in
            Reads result (nat_le size packet_limit && nat_lt (length old.sent) sent_limit
            && nat_le (sum_by length old.sent + size) sent_bytes_limit
            && range_passes (is_readable flat) at size)
            (self.new ≡ record (self.old) {
              traffic = record old { sent = old.sent ++ bytes_at flat.memory at size ∷ [] };
            })
            (self.new ≡ self.old) }
        ensures flat { S.flat space.new ≡ S.flat space.old }
        ensures spares { S.spares space.new ≡ S.spares space.old }
        ensures held { (S.finished space.new ≡ true) × (S.stake space.new ≡ S.stake space.old)
            × (S.span space.new ≡ S.span space.old) }
    {
        if !fits_net(size, self.count, self.used) {
            return Reading::Refused;
        }
        let size = size as usize;
        let end = self.used + size;
        match read_part(space, at, &mut self.bytes, self.used, end) {
            Reading::Done => {
                self.sizes[self.count] = size;
                self.count += 1;
                self.used = end;
                Reading::Done
            }
            Reading::Refused => Reading::Refused,
        }
    }
}
