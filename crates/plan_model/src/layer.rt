//! A layer of a plan.

ghost use Rattle.std.specs.Prelude.{◌≡◌};

use machine_model::Packet;
use space_api::Text;
use std::marker::Model;

/// Packets that contracts see as a list.
#[derive(Debug, Drop)]
pub struct Packets {
    list: Vec<Packet>,
}

impl Model for Packets {
    ghost use Rattle.std.specs.Prelude.{List, ℕ};

    ghost Value = { List (List ℕ) };

    ghost view = { λ p. p.list.items };
}

impl Packets {
    /// These packets.
    pub fn from_vec(list: Vec<Packet>) -> Packets
        ensures { result ≡ list.items }
    {
        Packets { list }
    }

    /// All of the packets.
    pub fn as_slice(&self) -> &[Packet]
        ensures { result.now ≡ self.now }
    {
        &self.list
    }

    /// The packets as the vector that they came in.
    pub fn into_vec(self) -> Vec<Packet>
        ensures { result.items ≡ self }
    {
        self.list
    }
}

/// A layer: what is kept of a program that ran up to a trigger, on an image or on a lower layer.
#[derive(Debug, Drop)]
pub struct PlanLayer {
    /// Its name.
    pub name: Text,
    /// The number of the layer that it stands on, or none where it stands on an image.
    pub below: Option<u16>,
    /// The number of the start that the lowest layer of its stack begins with.
    pub start: u16,
    /// The address at which its run stops: a multiple of 4 from 4,096 to 2^38 less 4.
    pub trigger: u64,
    /// What its run is given, at most 16 packets.
    pub packets: Packets,
}
