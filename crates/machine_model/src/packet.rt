//! Packets, the bytes that a program is given and writes.

ghost use Rattle.std.specs.Prelude.{◌≡◌, ◌<◌, ◌≤◌, ◌↔◌, IsNone, IfSome, IfOk, length};
ghost use Rattle.machine_model.specs.Hypercall.{packet_limit};

use std::alloc::{AllocError, Global};
use std::error::Error;
use std::fmt;
use std::marker::Model;

/// Memory ran out.
#[derive(Clone, Copy, Debug, PartialEq, Eq)]
pub struct Memory;

impl fmt::Display for Memory {
    fn fmt<W: fmt::Write>(&self, f: &mut fmt::Formatter<W>) -> fmt::Result {
        write!(f, "out of memory")
    }
}

impl Error for Memory {}

impl From<AllocError> for Memory {
    fn from(_error: AllocError) -> Memory {
        Memory
    }
}

/// The most bytes of a packet.
pub const PACKET_LIMIT: usize = 32_768;

/// At most 32,768 bytes that go in or out together. Contracts see them as a list.
#[derive(Debug, Drop)]
pub struct Packet {
    bytes: Vec<u8>,
}

impl Model for Packet {
    ghost use Rattle.std.specs.Prelude.{List, ℕ, ◌≤◌, length};
    ghost use Rattle.machine_model.specs.Hypercall.{packet_limit};

    ghost Value = { List ℕ };

    ghost view = { λ p. p.bytes.items };

    ghost invariant = { λ p. length p.bytes.items ≤ packet_limit };
}

impl Packet {
    /// These bytes as a packet; none exactly where they are more than 32,768.
    pub fn new(bytes: Vec<u8>) -> Option<Packet>
        ensures packet { IfSome result (λ packet. packet ≡ bytes.items) }
        ensures none { IsNone result ↔ (packet_limit < length bytes.items) }
    {
        if bytes.len() > PACKET_LIMIT {
            return None;
        }
        Some(Packet { bytes })
    }

    /// The bytes, at most 32,768.
    pub fn bytes(&self) -> &[u8]
        ensures bytes { result.now ≡ self.now }
        ensures size { length result.now ≤ packet_limit }
    {
        &self.bytes
    }

    /// An equal packet.
    pub fn copy(&self, alloc: Global) -> Result<Packet, Memory>
        ensures { IfOk result (λ packet. packet ≡ self.now) }
    {
        let bytes = Vec::from_slice(alloc, &self.bytes)?;
        Ok(Packet { bytes })
    }
}
