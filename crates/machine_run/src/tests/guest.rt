//! Programs before their first instruction.
ghost use Rattle.std.specs.Prelude.{◌≡◌, ◌%◌, IfOk, IfSome, true};
ghost use Rattle.plain_space.specs.PlainSpace as plain;

use super::CLOCK;
use crate::limits::Progress;
use hyper_calls::Ports;
use image_model::{Bytes, Image, Segment, Segments};
use image_start::start_of;
use machine_model::Packet;
use plain_space::{PlainShelf, PlainSpace, PlainStore};
use space_api::{Hart, Start, Store};
use std::alloc::{AllocError, Global};
use std::slice;

/// Where each program begins. Its words stand on one page.
pub const START: u64 = 0x1_0000;

/// A page that may be read and written.
const DATA: u64 = 0x2_0000;

const PAGE: u64 = 4096;

const STACK: u64 = 65_536;

/// Where the stack ends.
const TOP: u64 = 1 << 38;

/// The register of the stack pointer.
const SP: u8 = 2;

/// The flags of a page that may be read and written.
const RW: u32 = 6;

/// The words that have the name ECHO. They read a packet of at most 1,024 bytes to 0x10100 and
/// write it from there, with the size that a1 has then. They end with code 0.
const ECHO: &str = "00100413 01041413 10040513 40000593 00700893 00000073 10040513 00600893 \
                    00000073 00000513 00800893 00000073";

/// A program that runs.
#[derive(Drop)]
pub struct Guest {
    pub hart: Hart,
    pub space: PlainSpace,
    pub ports: Ports,
    pub progress: Progress,
    ghost may_run: { plain.finished space ≡ true },
}

/// The bytes of words in hexadecimal, each the lowest byte first.
fn bytes_of(alloc: Global, words: &str) -> Option<Vec<u8>> {
    let mut bytes = Vec::new(alloc);
    for word in words.split(' ') {
        let word = u32::from_str_radix(word, 16).ok()?;
        bytes.extend_from_slice(&word.to_le_bytes()).ok()?;
    }
    Some(bytes)
}

/// A segment of one page.
fn page_of(at: u64, flags: u32, bytes: Vec<u8>) -> Segment {
    Segment {
        at,
        flags,
        size: PAGE,
        bytes: Bytes::from_vec(bytes),
    }
}

/// An image with these bytes on its first page, whose flags these are.
fn image_of(alloc: Global, flags: u32, bytes: Vec<u8>) -> Result<Image, AllocError>
    ensures { IfOk result (λ image. image.entry % 4 ≡ 0) }
{
    let mut segments = Vec::with_capacity(alloc, 2)?;
    segments.push(page_of(START, flags, bytes))?;
    segments.push(page_of(DATA, RW, Vec::new(alloc)))?;
    Ok(Image {
        entry: START,
        segments: Segments::from_vec(segments),
    })
}

/// A space of the start, which may run.
fn deployed(alloc: Global, start: &Start) -> Option<PlainSpace>
    ensures { IfSome result (λ space. plain.finished space ≡ true) }
{
    let store = PlainStore::open(slice::from_ref(start)).ok()?;
    let mut shelf = PlainShelf::new(0);
    let mut image = store.open_image(alloc, &mut shelf, 0).ok()?;
    let mut space = store.deploy(alloc, &mut image, &mut shelf).ok()?;
    store.finish_deploy(&mut space);
    Some(space)
}

/// The space of a program of these words.
fn space_of(alloc: Global, flags: u32, words: &str) -> Option<PlainSpace>
    ensures { IfSome result (λ space. plain.finished space ≡ true) }
{
    let image = image_of(alloc, flags, bytes_of(alloc, words)?).ok()?;
    let start = start_of(alloc, &image, STACK).ok()?;
    deployed(alloc, &start)
}

/// The packet of these bytes.
fn packet_of(alloc: Global, text: &str) -> Option<Packet> {
    let mut bytes = Vec::new(alloc);
    if text != "empty" {
        for byte in text.split(',') {
            bytes.push(u8::from_str_radix(byte, 16).ok()?).ok()?;
        }
    }
    Packet::new(bytes)
}

/// The packet of these bytes, or none.
pub fn packets_of(alloc: Global, text: &str) -> Option<Vec<Packet>> {
    let mut packets = Vec::new(alloc);
    if text != "none" {
        packets.push(packet_of(alloc, text)?).ok()?;
    }
    Some(packets)
}

/// Ports with this packet, or none.
fn ports_of(alloc: Global, packet: &str) -> Option<Ports> {
    let packets = packets_of(alloc, packet)?;
    let mut ports = Ports::open(alloc, CLOCK).ok()?;
    ports.begin(alloc, &packets, CLOCK).ok()?;
    Some(ports)
}

/// A hart before the first instruction.
fn first_hart() -> Hart {
    let mut hart = Hart {
        x: [0; 32],
        pc: START,
        resting: false,
    };
    hart.set_register(SP, TOP);
    hart
}

/// A program before its first instruction: the flags of its page, the packet that it is given, or
/// none, and its words.
pub fn guest_of(alloc: Global, given: &str) -> Option<Guest> {
    let (flags, rest) = given.split_once(' ')?;
    let (packet, words) = rest.split_once(' ')?;
    let words = if words == "ECHO" { ECHO } else { words };
    let space = space_of(alloc, flags.parse().ok()?, words)?;
    let ports = ports_of(alloc, packet)?;
    Some(Guest {
        hart: first_hart(),
        space,
        ports,
        progress: Progress { done: 0 },
    })
}
