//! From words to instructions. A run decodes a word each turn, and that is half of its time where
//! it isn't part of its loop: so what is here is inlined, wherever else words are decoded.

ghost use Rattle.std.specs.Prelude.{◌≡◌, Some};
ghost use Rattle.instruction_model.specs.Reading.{reading, i_imm, s_imm, b_offset, j_offset, rd_of};
ghost use Rattle.instruction_model.specs.Reading.{rs1_of, rs2_of, imm_of, imm_w_of, jalr_of};
ghost use Rattle.instruction_model.specs.Reading.{branch_of, load_of, store_of, op_imm_of, op_of};
ghost use Rattle.instruction_model.specs.Reading.{op_imm_w_of, op_w_of, fence_of, system_of};
ghost use Rattle.instruction_model.specs.InstructionWord.{Decodes, IsWordOf};
ghost use Rattle.instruction_model.specs.declared.instruction.Inst.{Inst};

use crate::field::{bits, signed};
use crate::{ImmOp, ImmWOp, Inst, operation};

/// The instruction that a word is, with its fields; none where the word fits no row of the
/// table. Each word that is some instruction's gives that instruction, which is the only one.
#[inline(always)]
pub fn decode(w: u32) -> Option<Inst>
    ensures decodes { Decodes w result }
    ensures only { (v : Inst) → IsWordOf w v → result ≡ Some v }
{
    by_opcode(w)
}

/// The instruction of a word, read off its fields.
#[inline(always)]
fn by_opcode(w: u32) -> Option<Inst>
    ensures { result ≡ reading w }
{
    match bits(w, 6, 0) {
        0x03 => load(w),
        0x0f => fence(w),
        0x13 => op_imm(w),
        0x17 => Some(Inst::Auipc {
            rd: rd(w),
            n: bits(w, 31, 12),
        }),
        0x1b => op_imm_w(w),
        0x23 => store(w),
        0x33 => op(w),
        0x37 => Some(Inst::Lui {
            rd: rd(w),
            n: bits(w, 31, 12),
        }),
        0x3b => op_w(w),
        0x63 => branch(w),
        0x67 => jalr(w),
        0x6f => Some(Inst::Jal {
            rd: rd(w),
            offset: j_offset(w),
        }),
        0x73 => system(w),
        _ => None,
    }
}

// ---- the formats' fields

/// The target register, bits 11..7.
#[inline]
fn rd(w: u32) -> u8
    ensures { result ≡ rd_of w }
{
    bits(w, 11, 7) as u8
}

/// The first source register, bits 19..15.
#[inline]
fn rs1(w: u32) -> u8
    ensures { result ≡ rs1_of w }
{
    bits(w, 19, 15) as u8
}

/// The second source register, bits 24..20.
#[inline]
fn rs2(w: u32) -> u8
    ensures { result ≡ rs2_of w }
{
    bits(w, 24, 20) as u8
}

/// An I-type word's immediate, bits 31..20, signed.
#[inline]
fn i_imm(w: u32) -> i32
    ensures { result ≡ i_imm w }
{
    signed(bits(w, 31, 20), 12)
}

/// An S-type word's immediate, bits 31..25 and 11..7, signed.
#[inline]
fn s_imm(w: u32) -> i32
    ensures { result ≡ s_imm w }
{
    signed(bits(w, 11, 7) + (bits(w, 31, 25) << 5), 12)
}

/// A B-type word's offset, bits 31, 7, 30..25 and 11..8, signed and even.
#[inline]
fn b_offset(w: u32) -> i32
    ensures { result ≡ b_offset w }
{
    let low = (bits(w, 11, 8) << 1) + (bits(w, 30, 25) << 5);
    let high = (bits(w, 7, 7) << 11) + (bits(w, 31, 31) << 12);
    signed(low + high, 13)
}

/// A J-type word's offset, bits 31, 19..12, 20 and 30..21, signed and even.
#[inline]
fn j_offset(w: u32) -> i32
    ensures { result ≡ j_offset w }
{
    let low = (bits(w, 30, 21) << 1) + (bits(w, 20, 20) << 11);
    let high = (bits(w, 19, 12) << 12) + (bits(w, 31, 31) << 20);
    signed(low + high, 21)
}

// ---- one function an opcode

/// The instruction of a word with the opcode JALR, or none where no row fits.
#[inline(always)]
fn jalr(w: u32) -> Option<Inst>
    ensures { result ≡ jalr_of w }
{
    match bits(w, 14, 12) {
        0 => Some(Inst::Jalr {
            rd: rd(w),
            rs1: rs1(w),
            imm: i_imm(w),
        }),
        _ => None,
    }
}

/// The instruction of a word with the opcode BRANCH, or none where no row fits.
#[inline(always)]
fn branch(w: u32) -> Option<Inst>
    ensures { result ≡ branch_of w }
{
    let op = operation::branch_op(bits(w, 14, 12))?;
    Some(Inst::Branch {
        op,
        rs1: rs1(w),
        rs2: rs2(w),
        offset: b_offset(w),
    })
}

/// The instruction of a word with the opcode LOAD, or none where no row fits.
#[inline(always)]
fn load(w: u32) -> Option<Inst>
    ensures { result ≡ load_of w }
{
    let op = operation::load_op(bits(w, 14, 12))?;
    Some(Inst::Load {
        op,
        rd: rd(w),
        rs1: rs1(w),
        imm: i_imm(w),
    })
}

/// The instruction of a word with the opcode STORE, or none where no row fits.
#[inline(always)]
fn store(w: u32) -> Option<Inst>
    ensures { result ≡ store_of w }
{
    let op = operation::store_op(bits(w, 14, 12))?;
    Some(Inst::Store {
        op,
        rs1: rs1(w),
        rs2: rs2(w),
        imm: s_imm(w),
    })
}

/// The instruction of a word with the opcode OP-IMM, or none where no row fits.
#[inline(always)]
fn op_imm(w: u32) -> Option<Inst>
    ensures { result ≡ op_imm_of w }
{
    let op = operation::imm_op(bits(w, 14, 12), bits(w, 31, 26))?;
    Some(Inst::OpImm {
        op,
        rd: rd(w),
        rs1: rs1(w),
        imm: imm_of(op, w),
    })
}

/// An OP-IMM operation's immediate: a shift's amount, bits 25..20, and else the I-type's.
#[inline]
fn imm_of(op: ImmOp, w: u32) -> i32
    ensures { result ≡ imm_of op w }
{
    match op {
        ImmOp::Slli | ImmOp::Srli | ImmOp::Srai => bits(w, 25, 20) as i32,
        ImmOp::Addi | ImmOp::Slti | ImmOp::Sltiu | ImmOp::Xori | ImmOp::Ori | ImmOp::Andi => i_imm(
            w,
        ),
    }
}

/// The instruction of a word with the opcode OP, or none where no row fits.
#[inline(always)]
fn op(w: u32) -> Option<Inst>
    ensures { result ≡ op_of w }
{
    let op = operation::reg_op(bits(w, 14, 12), bits(w, 31, 25))?;
    Some(Inst::Op {
        op,
        rd: rd(w),
        rs1: rs1(w),
        rs2: rs2(w),
    })
}

/// The instruction of a word with the opcode OP-IMM-32, or none where no row fits.
#[inline(always)]
fn op_imm_w(w: u32) -> Option<Inst>
    ensures { result ≡ op_imm_w_of w }
{
    let op = operation::imm_w_op(bits(w, 14, 12), bits(w, 31, 25))?;
    Some(Inst::OpImmW {
        op,
        rd: rd(w),
        rs1: rs1(w),
        imm: imm_w_of(op, w),
    })
}

/// An OP-IMM-32 operation's immediate: a shift's amount, bits 24..20, and else the I-type's.
#[inline]
fn imm_w_of(op: ImmWOp, w: u32) -> i32
    ensures { result ≡ imm_w_of op w }
{
    match op {
        ImmWOp::Addiw => i_imm(w),
        ImmWOp::Slliw | ImmWOp::Srliw | ImmWOp::Sraiw => bits(w, 24, 20) as i32,
    }
}

/// The instruction of a word with the opcode OP-32, or none where no row fits.
#[inline(always)]
fn op_w(w: u32) -> Option<Inst>
    ensures { result ≡ op_w_of w }
{
    let op = operation::reg_w_op(bits(w, 14, 12), bits(w, 31, 25))?;
    Some(Inst::OpW {
        op,
        rd: rd(w),
        rs1: rs1(w),
        rs2: rs2(w),
    })
}

/// The instruction of a word with the opcode MISC-MEM: a fence, or none.
#[inline(always)]
fn fence(w: u32) -> Option<Inst>
    ensures { result ≡ fence_of w }
{
    match bits(w, 14, 12) {
        0 => Some(Inst::Fence {
            rd: rd(w),
            rs1: rs1(w),
            n: bits(w, 31, 20),
        }),
        _ => None,
    }
}

/// The instruction of a word with the opcode SYSTEM: ECALL, EBREAK, or none.
#[inline(always)]
fn system(w: u32) -> Option<Inst>
    ensures { result ≡ system_of w }
{
    match w {
        0x0000_0073 => Some(Inst::Ecall),
        0x0010_0073 => Some(Inst::Ebreak),
        _ => None,
    }
}
