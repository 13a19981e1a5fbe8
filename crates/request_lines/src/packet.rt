//! The packet that a word says.

ghost use Rattle.std.specs.Prelude.{◌≡◌, ◌≤◌, ◌^◌, IfOk, length, option_map};
ghost use Rattle.request_lines.specs.Requests as spec;

use crate::fault::LineKind;
use hex::FromHexError;
use machine_model::Packet;
use std::alloc::{AllocError, Global};

/// The bytes that digits spell. None exactly where they aren't an even number of hexadecimal
/// digits. The only error is want of memory.
fn decoded(alloc: Global, digits: &[u8]) -> Result<Option<Vec<u8>>, AllocError>
    ensures { IfOk result (λ bytes.
        option_map (λ v. v.items) bytes ≡ spec.digits_say digits.now) }
{
    match hex::decode(alloc, digits) {
        Ok(bytes) => Ok(Some(bytes)),
        Err(FromHexError::OutOfMemory) => Err(AllocError),
        Err(FromHexError::InvalidHexCharacter { .. }) => Ok(None),
        Err(FromHexError::OddLength) => Ok(None),
        Err(FromHexError::InvalidStringLength) => Ok(None),
    }
}

/// The bytes that a word says: none of them where it is `-`. None exactly where it is neither that
/// nor an even number of hexadecimal digits, at least two. The only error is want of memory.
#[tactic(auto, unfolding(crate::specs::Requests::bytes_of))]
fn bytes_of(alloc: Global, word: &[u8]) -> Result<Option<Vec<u8>>, AllocError>
    ensures { IfOk result (λ bytes. option_map (λ v. v.items) bytes ≡ spec.bytes_of word.now) }
{
    if word.is_empty() {
        return Ok(None);
    }
    if word == b"-".as_slice() {
        return Ok(Some(Vec::new(alloc)));
    }
    decoded(alloc, word)
}

/// The packet that a word says, or `Hex`, or `Long`. The only error is want of memory.
#[tactic(auto, unfolding(crate::specs::Requests::packet_of))]
pub fn packet_of(alloc: Global, word: &[u8]) -> Result<Result<Packet, LineKind>, AllocError>
    ensures { IfOk result (λ packet. packet ≡ spec.packet_of word.now) }
{
    match bytes_of(alloc, word)? {
        None => Ok(Err(LineKind::Hex)),
        Some(bytes) => match Packet::new(bytes) {
            None => Ok(Err(LineKind::Long)),
            Some(packet) => Ok(Ok(packet)),
        },
    }
}
