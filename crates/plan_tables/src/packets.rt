//! The packets that a layer's run is given.

ghost use Rattle.std.specs.Prelude.{◌≡◌, ◌≢◌, ◌≤◌, ◌<◌, Some, None, IfErr, IfOk, length, unwrap_or};
ghost use Rattle.std.specs.Prelude.{[], Vec};
ghost use Rattle.std.specs.Result.{result_err};
ghost use Rattle.toml.specs.View.{table_view, view, items_view};
ghost use Rattle.plan_tables.specs.Faults.{Tells};
ghost use Rattle.plan_tables.specs.Layers as spec;

use crate::fault::PlanFault;
use crate::key::Key;
use crate::members::value;
use elf64::Bytes;
use hex::FromHexError;
use plan_model::{Packet, Packets};
use std::alloc::Global;
use toml::{Table, Value};

/// The most packets of a layer.
const MOST_PACKETS: usize = 16;

/// The packets of a layer's table, none where it doesn't have the key; `Shape`, `Range`.
pub fn packets(alloc: Global, table: &Table) -> Result<Packets, PlanFault>
    ensures fault { Tells (spec.packets_fault (table_view table.now)) result }
    ensures value { IfOk result (λ packets. packets ≡ spec.packets_at (table_view table.now)) }
    ensures few { IfOk result (λ packets. length packets ≤ 16) }
{
    match value(table, Key::Packets) {
        None => Ok(Packets::from_vec(Vec::new(alloc))),
        Some(value) => packets_of(alloc, value),
    }
}

/// The packets that the value at the key is; `Shape`, `Range`.
fn packets_of(alloc: Global, value: &Value) -> Result<Packets, PlanFault>
    ensures fault { Tells (spec.packets_shape (spec.value_packets (Some (view value.now)))) result }
    ensures value { IfOk result (λ packets.
        packets ≡ unwrap_or (spec.value_packets (Some (view value.now))) []) }
    ensures few { IfOk result (λ packets. length packets ≤ 16) }
{
    match value.as_array() {
        None => Err(PlanFault::Shape(Key::Packets)),
        Some(array) => few_packets(decoded_items(alloc, array.as_slice())?, alloc),
    }
}

/// The bytes of each item; `Shape` where one isn't an even number of hexadecimal digits.
fn decoded_items(alloc: Global, items: &[Value]) -> Result<Vec<Bytes>, PlanFault>
    ensures value { IfOk result (λ all. spec.packets_of (items_view items.now) ≡ Some all.items) }
    ensures fault { IfErr result (λ fault. fault ≢ PlanFault.Memory →
        (spec.packets_of (items_view items.now) ≡ None) × (fault ≡ PlanFault.Shape Key.Packets)) }
{
    let mut all = Vec::with_capacity(alloc, items.len())?;
    'items: for item in items {
        all.push(decoded(alloc, item)?)?;
    }
    Ok(all)
}

/// The bytes of an item; `Shape` where it isn't an even number of hexadecimal digits.
fn decoded(alloc: Global, item: &Value) -> Result<Bytes, PlanFault>
    ensures value { IfOk result (λ bytes. spec.packet_of (view item.now) ≡ Some bytes) }
    ensures fault { IfErr result (λ fault. fault ≢ PlanFault.Memory →
        (spec.packet_of (view item.now) ≡ None) × (fault ≡ PlanFault.Shape Key.Packets)) }
{
    match item.as_str() {
        None => Err(PlanFault::Shape(Key::Packets)),
        Some(digits) => match hex::decode(alloc, digits) {
            Ok(bytes) => Ok(Bytes::from_vec(bytes)),
            Err(FromHexError::OutOfMemory) => Err(PlanFault::Memory),
            Err(FromHexError::InvalidHexCharacter { .. }) => Err(PlanFault::Shape(Key::Packets)),
            Err(FromHexError::OddLength) => Err(PlanFault::Shape(Key::Packets)),
            Err(FromHexError::InvalidStringLength) => Err(PlanFault::Shape(Key::Packets)),
        },
    }
}

/// At most 16 packets, each of at most 32,768 bytes; `Range`.
fn few_packets(all: Vec<Bytes>, alloc: Global) -> Result<Packets, PlanFault>
    ensures fault { Tells (spec.packets_shape (Some all.items)) result }
    ensures value { IfOk result (λ packets. packets ≡ all.items) }
    ensures few { IfOk result (λ packets. length packets ≤ 16) }
{
    if all.len() > MOST_PACKETS {
        return Err(PlanFault::Range(Key::Packets));
    }
    let mut packets = Vec::with_capacity(alloc, all.len())?;
    'packets: for bytes in all {
        match Packet::new(bytes.into_vec()) {
            None => return Err(PlanFault::Range(Key::Packets)),
            Some(packet) => packets.push(packet)?,
        }
    }
    Ok(Packets::from_vec(packets))
}
