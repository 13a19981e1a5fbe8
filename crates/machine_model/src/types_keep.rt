//! What the types of starts and packets keep, handed out for definitions that ask for it. A
//! function here changes nothing: its contract is what is known of every such value.

ghost use Rattle.std.specs.Prelude.{◌^◌, ◌<◌, ℕ};
ghost use Rattle.image_model.specs.Layout.{byte_in, IsLayout};
ghost use Rattle.machine_model.specs.Valid.{AreBytes, HasBytes, IsPacket};

use crate::packet::Packet;
use image_model::{PageBytes, Start};

/// Every start is one that can be loaded: it is a lawful layout, its entry is a word, and what it
/// lists are bytes.
pub fn start_is_loadable(start: &Start)
    ensures layout { IsLayout start.now }
    ensures entry { start.now.entry < 2 ^ 64 }
    ensures bytes { HasBytes start.now }
{
    start.keeps_layout();
    let _entry = start.entry();
    pages_have_bytes(start.pages());
}

/// What pages list are bytes.
fn pages_have_bytes(pages: &[PageBytes])
    ensures { (a : ℕ) → byte_in pages.now a < 2 ^ 8 }
{
    match pages {
        [] => {}
        [first, rest @ ..] => {
            are_bytes(first.bytes.as_slice());
            pages_have_bytes(rest);
        }
    }
}

/// Every packet is one that a machine can be given: bytes, at most 32,768 of them.
pub fn packet_can_be_given(packet: &Packet)
    ensures { IsPacket packet.now }
{
    are_bytes(packet.bytes());
}

/// Each byte is below 2^8.
fn are_bytes(bytes: &[u8])
    ensures { AreBytes bytes.now }
{
    let _bytes = bytes;
}
