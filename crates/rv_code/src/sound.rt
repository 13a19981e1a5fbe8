//! Whether the fields of an instruction are in their ranges.

ghost use Rattle.std.specs.Prelude.{◌<◌, ◌↔◌, IsTrue};
ghost use Rattle.instruction_model.specs.InstructionWord.{IsSound, IsRegister, FitsBits, IsOffset};
ghost use Rattle.instruction_model.specs.InstructionWord.{IsImm, IsImmW};

use crate::field::is_within;
use crate::{ImmOp, ImmWOp, Inst};

/// Whether each field of an instruction is in its range, so that the instruction has a word.
pub fn is_sound(inst: &Inst) -> bool
    ensures { IsTrue result ↔ IsSound inst.now }
{
    match *inst {
        Inst::Lui { rd, n } | Inst::Auipc { rd, n } => is_register(rd) && n < 1 << 20,
        Inst::Jal { rd, offset } => is_register(rd) && is_jump_offset(offset),
        Inst::Jalr { rd, rs1, imm } => is_register(rd) && is_register(rs1) && is_imm(imm),
        Inst::Load { rd, rs1, imm, .. } => is_register(rd) && is_register(rs1) && is_imm(imm),
        Inst::Branch {
            rs1,
            rs2,
            offset,
            ..
        } => is_register(rs1) && is_register(rs2) && is_branch_offset(offset),
        Inst::Store { rs1, rs2, imm, .. } => is_register(rs1) && is_register(rs2) && is_imm(imm),
        Inst::OpImm { op, rd, rs1, imm } => {
            is_register(rd) && is_register(rs1) && is_op_imm(op, imm)
        }
        Inst::OpImmW { op, rd, rs1, imm } => {
            is_register(rd) && is_register(rs1) && is_op_imm_w(op, imm)
        }
        Inst::Op { rd, rs1, rs2, .. } | Inst::OpW { rd, rs1, rs2, .. } => {
            is_register(rd) && is_register(rs1) && is_register(rs2)
        }
        Inst::Fence { rd, rs1, n } => is_register(rd) && is_register(rs1) && n < 1 << 12,
        Inst::Ecall | Inst::Ebreak => true,
    }
}

/// Whether it is a register, 0 to 31.
fn is_register(r: u8) -> bool
    ensures { IsTrue result ↔ IsRegister r }
{
    r < 32
}

/// Whether it has a form of 12 bits, -2,048 to 2,047.
fn is_imm(imm: i32) -> bool
    ensures { IsTrue result ↔ FitsBits 12 imm }
{
    is_within(imm, 1 << 11)
}

/// Whether it is a branch's offset: even, -4,096 to 4,094.
fn is_branch_offset(offset: i32) -> bool
    ensures { IsTrue result ↔ IsOffset 13 offset }
{
    is_within(offset, 1 << 12) && offset % 2 == 0
}

/// Whether it is a jump's offset: even, -1,048,576 to 1,048,574.
fn is_jump_offset(offset: i32) -> bool
    ensures { IsTrue result ↔ IsOffset 21 offset }
{
    is_within(offset, 1 << 20) && offset % 2 == 0
}

/// Whether it is the operation's immediate: a shift's is 0 to 63, and else of 12 bits.
fn is_op_imm(op: ImmOp, imm: i32) -> bool
    ensures { IsTrue result ↔ IsImm op imm }
{
    match op {
        ImmOp::Slli | ImmOp::Srli | ImmOp::Srai => 0 <= imm && imm < 64,
        ImmOp::Addi | ImmOp::Slti | ImmOp::Sltiu | ImmOp::Xori | ImmOp::Ori | ImmOp::Andi => is_imm(
            imm,
        ),
    }
}

/// Whether it is the operation's immediate: a shift's is 0 to 31, and else of 12 bits.
fn is_op_imm_w(op: ImmWOp, imm: i32) -> bool
    ensures { IsTrue result ↔ IsImmW op imm }
{
    match op {
        ImmWOp::Addiw => is_imm(imm),
        ImmWOp::Slliw | ImmWOp::Srliw | ImmWOp::Sraiw => 0 <= imm && imm < 32,
    }
}
