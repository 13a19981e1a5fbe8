//! The buffer.

ghost use Rattle.std.specs.Prelude.{◌≡◌, ◌++◌, [], false, true};

use arrayvec::ArrayVec;
use std::marker::Model;

/// The most bytes that a buffer holds back.
pub const ROOM: usize = 4096;

/// Bytes that are held back before a sink, and whether a write of it failed.
#[derive(Drop)]
pub struct Buffer {
    bytes: ArrayVec<u8, ROOM>,
    failed: bool,
}

impl Model for Buffer {
    ghost use Rattle.output_buffer.specs.Sent.{Held};

    ghost Value = { Held };

    ghost view = { λ b. record { bytes = b.bytes.items; failed = b.failed } };
}

impl Buffer {
    ghost use Rattle.output_buffer.specs.Sent.{nothing_held};

    /// A buffer that holds nothing, before a sink that hasn't failed.
    pub fn new() -> Buffer
        ensures { result ≡ nothing_held }
    {
        Buffer {
            bytes: ArrayVec::new(),
            failed: false,
        }
    }

    /// Whether a write failed. Nothing goes out from then on.
    pub fn has_failed(&self) -> bool
        ensures { result ≡ self.now.failed }
    {
        self.failed
    }

    /// The bytes that are held back.
    pub fn as_slice(&self) -> &[u8]
        ensures { result.now ≡ self.now.bytes }
    {
        self.bytes.as_slice()
    }

    /// Holds these bytes back too, and tells whether there was room for them.
    pub fn hold(&mut self, piece: &[u8]) -> bool
        ensures held { result ≡ true → self.new ≡ record {
          bytes = self.old.bytes ++ piece.now;
          failed = self.old.failed;
        } }
        ensures full { result ≡ false → self.new ≡ self.old }
    {
        self.bytes.try_extend_from_slice(piece).is_ok()
    }

    /// Holds nothing back any more, and notes whether a write failed.
    pub fn empty(&mut self, failed: bool)
        ensures { self.new ≡ record { bytes = []; failed = failed } }
    {
        self.bytes.clear();
        self.failed = failed;
    }
}
