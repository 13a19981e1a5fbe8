//! The answer to a request.

use machine_model::Packet;
use std::alloc::Global;
use std::marker::Model;

/// Where the context of a request came from.
#[derive(Clone, Copy, Debug, PartialEq, Eq)]
pub enum How {
    /// It was deployed from the image or a layer below the function's.
    Cold,
    /// It was deployed from the function's layer.
    Warm,
    /// It was idle.
    Hot,
    /// There was none.
    None,
}

/// Why a layer's run ended without a layer.
#[derive(Clone, Copy, Debug, PartialEq, Eq)]
pub enum Why {
    /// The program waits for a packet and none is queued.
    Rest,
    /// The program ended itself with this code.
    Halt { code: u64 },
    /// The instruction at `pc` raised an exception, with this cause and trap value.
    Fault { cause: u64, pc: u64, tval: u64 },
    /// As many instructions retired as the run may take.
    Budget,
}

/// How a request ended.
#[derive(Clone, Copy, Debug, PartialEq, Eq)]
pub enum End {
    /// The program waits for its next packet.
    Ok,
    /// The program ended itself with this code.
    Halt { code: u64 },
    /// The instruction at `pc` raised an exception, with this cause and trap value.
    Fault { cause: u64, pc: u64, tval: u64 },
    /// As many instructions retired as the run may take.
    Budget,
    /// Layer `k` couldn't be made.
    NoLayer { k: u16, why: Why },
    /// It was refused: no frame was free.
    Frames,
    /// It found no memory.
    Memory,
}

/// The packets that a run wrote, in order. Contracts see the list of their bytes.
#[derive(Debug, Drop)]
pub struct Packets {
    items: Vec<Packet>,
}

impl Model for Packets {
    ghost use Rattle.std.specs.Prelude.{List, ℕ};

    ghost Value = { List (List ℕ) };

    ghost view = { λ p. p.items.items };
}

impl Packets {
    ghost use Rattle.std.specs.Prelude.{◌≡◌, []};

    /// No packets.
    pub fn none(alloc: Global) -> Packets
        ensures { result ≡ [] }
    {
        Packets {
            items: Vec::new(alloc),
        }
    }

    /// These packets.
    pub fn new(items: Vec<Packet>) -> Packets
        ensures { result ≡ items.items }
    {
        Packets { items }
    }

    /// The packets, in order.
    pub fn as_slice(&self) -> &[Packet]
        ensures { result.now ≡ self.now }
    {
        &self.items
    }

    /// The packets, in order.
    pub fn into_vec(self) -> Vec<Packet>
        ensures { result.items ≡ self }
    {
        let Packets { items } = self;
        items
    }
}

/// What a request's line says.
#[derive(Debug, Drop)]
pub struct Answer {
    /// The request's number, from 1.
    pub i: u32,
    /// Where its context came from.
    pub how: How,
    /// The number of its context, from 1, and 0 where there was none.
    pub context: u32,
    /// How many requests the context answered before.
    pub used: u32,
    pub end: End,
    /// How many instructions retired.
    pub steps: u64,
    /// The packets that were written.
    pub net: Packets,
    /// The console bytes that were written.
    pub console: Packet,
}
