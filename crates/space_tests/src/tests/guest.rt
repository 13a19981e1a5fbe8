//! A program over a space with spares.
ghost use Rattle.std.specs.Prelude.{◌≡◌, ◌%◌, IfOk};

use counted_space::CountedSpace;
use hyper_calls::Ports;
use image_model::{Bytes, Image, Segment, Segments};
use image_start::start_of;
use machine_model::Packet;
use machine_run::Progress;
use space_api::{Hart, first_hart};
use std::alloc::{AllocError, Global};

/// What the clock shows.
const CLOCK: u64 = 1_700_000_000_123_456_789;

/// Where the program begins.
const START: u64 = 0x1_0000;

const STACK: u64 = 65_536;

/// The flags of pages that may be read and executed, and of those that may be read and written.
const RX: u32 = 5;

const RW: u32 = 6;

/// The program: stores of -9, of 1 byte to page 511, of 2 to page 512, of 4 to page 513, and of 8
/// to the pages on both sides of 2^30; a net read of a packet of 4 bytes to pages 1022 and 1023,
/// which it writes again from there; the end with code 0.
const WORDS: &str = "ff700293 00200437 fe540fa3 00541023 002014b7 0054a023 400004b7 fe54be23 \
                     003ff537 ffe50513 00400593 00700893 00000073 003ff537 ffe50513 00600893 \
                     00000073 00800893 00000073";

/// A program that runs.
#[derive(Drop)]
pub struct Guest {
    pub hart: Hart,
    pub space: CountedSpace,
    pub ports: Ports,
    pub progress: Progress,
}

/// The bytes of the program's words, each the lowest byte first.
fn bytes_of(alloc: Global) -> Option<Vec<u8>> {
    let mut bytes = Vec::new(alloc);
    for word in WORDS.split(' ') {
        let word = u32::from_str_radix(word, 16).ok()?;
        bytes.extend_from_slice(&word.to_le_bytes()).ok()?;
    }
    Some(bytes)
}

/// A segment of so many bytes, the first of which are these.
fn segment(at: u64, flags: u32, size: u64, bytes: Vec<u8>) -> Segment {
    Segment {
        at,
        flags,
        size,
        bytes: Bytes::from_vec(bytes),
    }
}

/// The program's page, pages 511 to 513, pages 1022 and 1023, and nine pages about 2^30.
fn image_of(alloc: Global, bytes: Vec<u8>) -> Result<Image, AllocError>
    ensures { IfOk result (λ image. image.entry % 4 ≡ 0) }
{
    let mut segments = Vec::with_capacity(alloc, 4)?;
    segments.push(segment(START, RX, 0x1000, bytes))?;
    segments.push(segment(0x1f_f000, RW, 0x3000, Vec::new(alloc)))?;
    segments.push(segment(0x3f_e000, RW, 0x2000, Vec::new(alloc)))?;
    segments.push(segment(0x3fff_c000, RW, 0x9000, Vec::new(alloc)))?;
    Ok(Image {
        entry: START,
        segments: Segments::from_vec(segments),
    })
}

/// The program before its first instruction, which is given a packet of 4 bytes. Its space has no
/// spares.
pub fn guest_of(alloc: Global) -> Option<Guest> {
    let image = image_of(alloc, bytes_of(alloc)?).ok()?;
    let start = start_of(alloc, &image, STACK).ok()?;
    let space = CountedSpace::of(alloc, &start, 0).ok()?;
    let packet = Packet::new(Vec::from_slice(alloc, &[1, 2, 3, 4]).ok()?)?;
    let mut packets = Vec::new(alloc);
    packets.push(packet).ok()?;
    let mut ports = Ports::open(alloc, CLOCK).ok()?;
    ports.begin(alloc, &packets, CLOCK).ok()?;
    Some(Guest {
        hart: first_hart(&start),
        space,
        ports,
        progress: Progress { done: 0 },
    })
}
