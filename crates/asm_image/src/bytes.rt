//! The bytes of segments.

ghost use Rattle.std.specs.Prelude.{◌≡◌, ◌+◌, ◌<◌, ◌≤◌, ◌^◌, ◌∷◌, ◌++◌, [], false, None, vec_len};
ghost use Rattle.std.specs.Prelude.{IfOk, OnOk, replicate};
ghost use Rattle.std.specs.Int.{w32, to_le_bytes};
ghost use Rattle.asm_image.specs.ImageOf as model;
ghost use Rattle.asm_image.specs.Sizes.{part_size};
ghost use Rattle.asm_image.specs.Uses.{is_far, first_line, offset, is_outside, branch_offset};
ghost use Rattle.asm_image.specs.Uses.{jump_offset};
ghost use Rattle.asm_lines.specs.Said.{said_data};
ghost use Rattle.asm_program.specs.Held.{piece_of, part_of, labels_of};
ghost use Rattle.asm_program.specs.Program.{byte_count};
ghost use Rattle.instruction_model.specs.InstructionWord.{word_of, IsRegister};
ghost use Rattle.instruction_model.specs.declared.instruction.Inst.TheVariants.{Branch, Jal};

use crate::uses::{BRANCH_LIMIT, JUMP_LIMIT, address_of, reach};
use asm_lines::Data;
use asm_program::{Labels, Part, Piece};
use image_model::{Bytes, Segment};
use rv_code::{BranchOp, Inst, encode};
use std::alloc::{AllocError, Global};

/// The segment of an image, where it has room for the bytes, and its labels are near.
pub fn segment_of(alloc: Global, labels: &Labels, part: &Part) -> Result<Segment, AllocError>
    requires near { first_line (is_far (labels_of labels.now)) (part_of part.now).pieces ≡ None }
    requires room { part_size (part_of part.now) ≤ 2 ^ 24 }
    ensures { IfOk result (λ segment. segment
        ≡ model.segment_for (labels_of labels.now) (part_of part.now)) }
{
    let bytes = Bytes::from_vec(bytes_of(alloc, labels, part)?);
    Ok(Segment {
        at: part.at,
        flags: part.flags,
        size: part.size,
        bytes,
    })
}

/// The bytes of a segment.
fn bytes_of(alloc: Global, labels: &Labels, part: &Part) -> Result<Vec<u8>, AllocError>
    requires near { first_line (is_far (labels_of labels.now)) (part_of part.now).pieces ≡ None }
    requires room { part_size (part_of part.now) ≤ 2 ^ 24 }
    ensures { IfOk result (λ bytes. bytes.items
        ≡ (model.segment_for (labels_of labels.now) (part_of part.now)).bytes) }
{
    let mut bytes = Vec::new(alloc);
    for piece in &part.pieces {
        add_piece(&mut bytes, labels, part.at, piece)?;
    }
    Ok(bytes)
}

/// Adds the bytes of a piece of the segment at the address.
fn add_piece(bytes: &mut Vec<u8>, labels: &Labels, at: u64, piece: &Piece) -> Result<(), AllocError>
    requires near { is_far (labels_of labels.now) (piece_of at piece.now) ≡ false }
    requires room { vec_len bytes.old + byte_count (said_data piece.now.says) ≤ 2 ^ 24 }
    ensures { OnOk result (bytes.new.items ≡ bytes.old.items
        ++ model.piece_bytes (labels_of labels.now) (piece_of at piece.now)) }
{
    let address = address_of(at, piece);
    match piece.says {
        Data::Word(word) => add_word(bytes, word),
        Data::Byte(byte) => add_byte(bytes, byte),
        Data::Zeros(count) => add_zeros(bytes, count as usize),
        Data::BranchTo { op, rs1, rs2, name } => {
            add_word(bytes, branch_word(labels, address, op, rs1, rs2, name))
        }
        Data::JumpTo { rd, name } => add_word(bytes, jump_word(labels, address, rd, name)),
    }
}

/// Adds a word, its lowest byte first.
fn add_word(bytes: &mut Vec<u8>, word: u32) -> Result<(), AllocError>
    ensures { OnOk result (bytes.new.items ≡ bytes.old.items ++ to_le_bytes w32 word) }
{
    bytes.extend_from_slice(&word.to_le_bytes())
}

/// Adds a byte.
fn add_byte(bytes: &mut Vec<u8>, byte: u8) -> Result<(), AllocError>
    ensures { OnOk result (bytes.new.items ≡ bytes.old.items ++ byte ∷ []) }
{
    bytes.push(byte)?;
    Ok(())
}

/// Adds so many bytes 0.
fn add_zeros(bytes: &mut Vec<u8>, count: usize) -> Result<(), AllocError>
    requires { vec_len bytes.old + count ≤ 2 ^ 24 }
    ensures { OnOk result (bytes.new.items ≡ bytes.old.items ++ replicate count 0) }
{
    bytes.resize(bytes.len() + count, 0)
}

/// The word of a branch at the address to a label that is near.
fn branch_word(labels: &Labels, address: u128, op: BranchOp, rs1: u8, rs2: u8, name: &[u8]) -> u32
    requires first { IsRegister rs1 }
    requires second { IsRegister rs2 }
    requires near { is_outside branch_offset (offset (labels_of labels.now) name.now address)
        ≡ false }
    ensures { result ≡ word_of (Branch op rs1 rs2
        (model.reach (labels_of labels.now) name.now address)) }
{
    let offset = reach(labels, name, address, BRANCH_LIMIT);
    encode(&Inst::Branch {
        op,
        rs1,
        rs2,
        offset,
    })
}

/// The word of a jump at the address to a label that is near.
fn jump_word(labels: &Labels, address: u128, rd: u8, name: &[u8]) -> u32
    requires register { IsRegister rd }
    requires near { is_outside jump_offset (offset (labels_of labels.now) name.now address)
        ≡ false }
    ensures { result ≡ word_of (Jal rd (model.reach (labels_of labels.now) name.now address)) }
{
    let offset = reach(labels, name, address, JUMP_LIMIT);
    encode(&Inst::Jal { rd, offset })
}
