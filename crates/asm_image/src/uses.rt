//! Pieces that go to a label.

ghost use Rattle.std.specs.Prelude.{◌≡◌, ◌-◌, ◌<◌, ◌≤◌, ◌^◌, pos, negsuc, is_some, false};
ghost use Rattle.asm_lines.specs.Said.{said_data};
ghost use Rattle.asm_lines.specs.Statement.{ranged_even};
ghost use Rattle.asm_program.specs.Held.{piece_of, labels_of};
ghost use Rattle.asm_image.specs.ImageOf.{reach};
ghost use Rattle.asm_image.specs.Offsets.{IsWithin};
ghost use Rattle.asm_image.specs.Uses as model;

use crate::distance::offset_within;
use asm_lines::Data;
use asm_program::{Labels, Piece};

/// A branch goes back up to so many bytes, and ahead by less.
pub const BRANCH_LIMIT: u32 = 4096;

/// A jump goes back up to so many bytes, and ahead by less.
pub const JUMP_LIMIT: u32 = 1_048_576;

/// The address of a piece of the segment at the address.
pub fn address_of(at: u64, piece: &Piece) -> u128
    ensures { result ≡ (piece_of at piece.now).address }
{
    u128::from(at) + u128::from(piece.offset)
}

/// Whether a piece of the segment at the address goes to a label that it can't reach.
pub fn is_far(labels: &Labels, at: u64, piece: &Piece) -> bool
    ensures { result ≡ model.is_far (labels_of labels.now) (piece_of at piece.now) }
{
    let address = address_of(at, piece);
    match piece.says {
        Data::Word(_) => false,
        Data::Byte(_) => false,
        Data::Zeros(_) => false,
        Data::BranchTo { name, .. } => is_outside(labels, name, address, BRANCH_LIMIT),
        Data::JumpTo { name, .. } => is_outside(labels, name, address, JUMP_LIMIT),
    }
}

/// Whether the label is defined, and too far from the address.
fn is_outside(labels: &Labels, name: &[u8], address: u128, limit: u32) -> bool
    requires low { 0 < limit }
    requires high { limit ≤ 2 ^ 20 }
    ensures { result ≡ model.is_outside (ranged_even (negsuc (limit - 1)) (pos (limit - 1)))
        (model.offset (labels_of labels.now) name.now address) }
{
    match labels.address_of(name) {
        None => false,
        Some(to) => offset_within(address, to, limit).is_none(),
    }
}

/// The distance to the label, where it is defined and near, or else 0.
pub fn reach(labels: &Labels, name: &[u8], address: u128, limit: u32) -> i32
    requires low { 0 < limit }
    requires high { limit ≤ 2 ^ 20 }
    requires near { model.is_outside (ranged_even (negsuc (limit - 1)) (pos (limit - 1)))
        (model.offset (labels_of labels.now) name.now address) ≡ false }
    ensures value { result ≡ reach (labels_of labels.now) name.now address }
    ensures within { IsWithin limit result }
{
    match labels.address_of(name) {
        None => 0,
        Some(to) => offset_within(address, to, limit).unwrap(),
    }
}

/// Whether a piece goes to a label that isn't defined.
pub fn is_lost(labels: &Labels, piece: &Piece) -> bool
    ensures { result ≡ model.is_lost_for (labels_of labels.now) (said_data piece.now.says) }
{
    match piece.says {
        Data::Word(_) => false,
        Data::Byte(_) => false,
        Data::Zeros(_) => false,
        Data::BranchTo { name, .. } => !is_defined(labels, name),
        Data::JumpTo { name, .. } => !is_defined(labels, name),
    }
}

/// Whether the label is defined.
pub fn is_defined(labels: &Labels, name: &[u8]) -> bool
    ensures { result ≡ is_some (labels_of labels.now name.now) }
{
    labels.address_of(name).is_some()
}
