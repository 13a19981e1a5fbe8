//! Bytes and packets.

ghost use Rattle.std.specs.Prelude.{◌≡◌, ◌≤◌, [], ◌∷◌, ◌++◌, MatchOption, IfOk, OnOk, is_ok, IsOk};
ghost use Rattle.std.specs.Prelude.{None, Some, vec_capacity};
ghost use Rattle.std.specs.List.{flat_map};
ghost use Rattle.reply_words.specs.Spelling.{packets_text, packet_behind_slash};
ghost use Rattle.reply_words.specs.Pushes.{Pushes, HasRoom};
ghost use Rattle.reply_words.specs.Reading as model;

use crate::number::low_digit;
use crate::piece::{Piece, push_pieces};
use crate::word::{cut, is};
use journal_model::Packets;
use machine_model::{Memory, PACKET_LIMIT, Packet};
use std::alloc::Global;

/// Pushes packets behind bytes: each as its bytes, with slashes between, or `none`. `Memory` where
/// there is too little of it; what was there stays.
pub fn push_packets(out: &mut Vec<u8>, packets: &[Packet]) -> Result<(), Memory>
    ensures pushed { Pushes (is_ok result) (packets_text packets.now) out.old.items out.new.items }
    ensures room { HasRoom (packets_text packets.now) out.old → IsOk result }
    ensures capacity { vec_capacity out.old ≤ vec_capacity out.new }
{
    match packets {
        [] => push_pieces(out, &[Piece::Text("none")]),
        [first, rest @ ..] => {
            push_pieces(out, &[Piece::Bytes(first.bytes())])?;
            push_others(out, rest)
        }
    }
}

/// Pushes each packet behind a slash. `Memory` where there is too little of it; what was there
/// stays.
fn push_others(out: &mut Vec<u8>, packets: &[Packet]) -> Result<(), Memory>
    ensures pushed { Pushes (is_ok result) (flat_map packet_behind_slash packets.now)
        out.old.items out.new.items }
    ensures room { HasRoom (flat_map packet_behind_slash packets.now) out.old → IsOk result }
    ensures capacity { vec_capacity out.old ≤ vec_capacity out.new }
{
    'packets: for packet in packets {
        push_pieces(out, &[Piece::Text("/"), Piece::Bytes(packet.bytes())])?;
    }
    Ok(())
}

/// The bytes of pairs of digits; none exactly where a digit is none or stands alone. `Memory`
/// where there is too little of it.
fn read_pairs(alloc: Global, word: &[u8]) -> Result<Option<Vec<u8>>, Memory>
    ensures { IfOk result (λ found. MatchOption found (model.pairs_of word.now ≡ None)
        (λ bytes. model.pairs_of word.now ≡ Some bytes.items)) }
{
    let mut bytes = Vec::new(alloc);
    'pairs: for n in 0..word.len() / 2 {
        let (high, low) = (low_digit(word[2 * n]), low_digit(word[2 * n + 1]));
        if high >= 16 || low >= 16 {
            return Ok(None);
        }
        if bytes.push(high * 16 + low).is_err() {
            return Err(Memory);
        }
    }
    if word.len() % 2 == 1 {
        return Ok(None);
    }
    Ok(Some(bytes))
}

/// The bytes that a word is in hexadecimal, or a dash for none, if it is that and they are at most
/// 32,768. `Memory` where there is too little of it.
#[tactic(auto, unfolding(crate::specs::Reading::bytes_of))]
pub fn read_bytes(alloc: Global, word: &[u8]) -> Result<Option<Packet>, Memory>
    ensures { IfOk result (λ found. found ≡ model.bytes_of word.now) }
{
    if is(word, "-") {
        return Ok(Packet::new(Vec::new(alloc)));
    }
    if word.is_empty() || word.len() > 2 * PACKET_LIMIT {
        return Ok(None);
    }
    match read_pairs(alloc, word)? {
        Some(bytes) => Ok(Packet::new(bytes)),
        None => Ok(None),
    }
}

/// Puts a packet behind others. `Memory` where there is too little of it.
fn push_packet(packets: &mut Vec<Packet>, packet: Packet) -> Result<(), Memory>
    ensures { OnOk result (packets.new.items ≡ packets.old.items ++ packet ∷ []) }
{
    match packets.push(packet) {
        Ok(()) => Ok(()),
        Err(_) => Err(Memory),
    }
}

/// The packets that a word is: each as its bytes, with slashes between, or `none`. None exactly
/// where it isn't that. `Memory` where there is too little of it.
#[tactic(auto, unfolding(crate::specs::Reading::packets_of))]
pub fn read_packets(alloc: Global, word: &[u8]) -> Result<Option<Packets>, Memory>
    ensures { IfOk result (λ found. found ≡ model.packets_of word.now) }
{
    if is(word, "none") {
        return Ok(Some(Packets::none(alloc)));
    }
    let mut packets = Vec::new(alloc);
    let mut text = word;
    'packets: while let Some((first, rest)) = cut(b'/', text) {
        match read_bytes(alloc, first)? {
            Some(packet) => push_packet(&mut packets, packet)?,
            None => return Ok(None),
        }
        text = rest;
    }
    match read_bytes(alloc, text)? {
        Some(packet) => push_packet(&mut packets, packet)?,
        None => return Ok(None),
    }
    Ok(Some(Packets::new(packets)))
}
