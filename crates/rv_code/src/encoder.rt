//! From instructions to words.

ghost use Rattle.std.specs.Prelude.{◌≡◌, ◌<◌, ◌^◌};
ghost use Rattle.instruction_model.specs.InstructionWord.{IsSound, IsWordOf, word_of, bits, r_type};
ghost use Rattle.instruction_model.specs.InstructionWord.{i_type, s_type, b_type, u_type, j_type};
ghost use Rattle.instruction_model.specs.InstructionWord.{imm_field, imm_w_field, IsImm, IsImmW};
ghost use Rattle.instruction_model.specs.declared.instruction.Inst.TheVariants.{Branch, Load};
ghost use Rattle.instruction_model.specs.declared.instruction.Inst.TheVariants.{Store, OpImm, Op};
ghost use Rattle.instruction_model.specs.declared.instruction.Inst.TheVariants.{OpImmW, OpW};

use crate::field::{bits, unsigned};
use crate::{BranchOp, ImmOp, ImmWOp, Inst, LoadOp, RegOp, RegWOp, StoreOp, operation};

/// The word of an instruction whose fields are in their ranges, as `is_sound` tests.
pub fn encode(inst: &Inst) -> u32
    requires { IsSound inst.now }
    ensures word { result ≡ word_of inst.now }
    ensures is_word { IsWordOf result inst.now }
{
    match *inst {
        Inst::Lui { rd, n } => u_type(0x37, rd, n),
        Inst::Auipc { rd, n } => u_type(0x17, rd, n),
        Inst::Jal { rd, offset } => j_type(0x6f, rd, unsigned(offset, 21)),
        Inst::Jalr { rd, rs1, imm } => i_type(0x67, rd, 0, rs1, unsigned(imm, 12)),
        Inst::Branch {
            op,
            rs1,
            rs2,
            offset,
        } => branch(op, rs1, rs2, offset),
        Inst::Load { op, rd, rs1, imm } => load(op, rd, rs1, imm),
        Inst::Store { op, rs1, rs2, imm } => store(op, rs1, rs2, imm),
        Inst::OpImm { op, rd, rs1, imm } => op_imm(op, rd, rs1, imm),
        Inst::Op { op, rd, rs1, rs2 } => op_reg(op, rd, rs1, rs2),
        Inst::OpImmW { op, rd, rs1, imm } => op_imm_w(op, rd, rs1, imm),
        Inst::OpW { op, rd, rs1, rs2 } => op_reg_w(op, rd, rs1, rs2),
        Inst::Fence { rd, rs1, n } => i_type(0x0f, rd, 0, rs1, n),
        Inst::Ecall => 0x0000_0073,
        Inst::Ebreak => 0x0010_0073,
    }
}

// ---- instructions with an operation

/// The word of a branch.
fn branch(op: BranchOp, rs1: u8, rs2: u8, offset: i32) -> u32
    requires { IsSound (Branch op rs1 rs2 offset) }
    ensures { result ≡ word_of (Branch op rs1 rs2 offset) }
{
    let funct3 = operation::branch_funct3(op);
    b_type(0x63, funct3, rs1, rs2, unsigned(offset, 13))
}

/// The word of a load.
fn load(op: LoadOp, rd: u8, rs1: u8, imm: i32) -> u32
    requires { IsSound (Load op rd rs1 imm) }
    ensures { result ≡ word_of (Load op rd rs1 imm) }
{
    let funct3 = operation::load_funct3(op);
    i_type(0x03, rd, funct3, rs1, unsigned(imm, 12))
}

/// The word of a store.
fn store(op: StoreOp, rs1: u8, rs2: u8, imm: i32) -> u32
    requires { IsSound (Store op rs1 rs2 imm) }
    ensures { result ≡ word_of (Store op rs1 rs2 imm) }
{
    let funct3 = operation::store_funct3(op);
    s_type(0x23, funct3, rs1, rs2, unsigned(imm, 12))
}

/// The word of an operation on a register and an immediate.
fn op_imm(op: ImmOp, rd: u8, rs1: u8, imm: i32) -> u32
    requires { IsSound (OpImm op rd rs1 imm) }
    ensures { result ≡ word_of (OpImm op rd rs1 imm) }
{
    let funct3 = operation::imm_funct3(op);
    i_type(0x13, rd, funct3, rs1, imm_field(op, imm))
}

/// The word of an operation on two registers.
fn op_reg(op: RegOp, rd: u8, rs1: u8, rs2: u8) -> u32
    requires { IsSound (Op op rd rs1 rs2) }
    ensures { result ≡ word_of (Op op rd rs1 rs2) }
{
    let funct3 = operation::reg_funct3(op);
    let funct7 = operation::reg_funct7(op);
    r_type(0x33, rd, funct3, rs1, rs2, funct7)
}

/// The word of an operation on the low 32 bits of a register and an immediate.
fn op_imm_w(op: ImmWOp, rd: u8, rs1: u8, imm: i32) -> u32
    requires { IsSound (OpImmW op rd rs1 imm) }
    ensures { result ≡ word_of (OpImmW op rd rs1 imm) }
{
    let funct3 = operation::imm_w_funct3(op);
    i_type(0x1b, rd, funct3, rs1, imm_w_field(op, imm))
}

/// The word of an operation on the low 32 bits of two registers.
fn op_reg_w(op: RegWOp, rd: u8, rs1: u8, rs2: u8) -> u32
    requires { IsSound (OpW op rd rs1 rs2) }
    ensures { result ≡ word_of (OpW op rd rs1 rs2) }
{
    let funct3 = operation::reg_w_funct3(op);
    let funct7 = operation::reg_w_funct7(op);
    r_type(0x3b, rd, funct3, rs1, rs2, funct7)
}

/// Bits 31..20 of the word of an operation on an immediate.
fn imm_field(op: ImmOp, imm: i32) -> u32
    requires { IsImm op imm }
    ensures value { result ≡ imm_field op imm }
    ensures within { result < 2 ^ 12 }
{
    match op {
        ImmOp::Slli | ImmOp::Srli => imm as u32,
        ImmOp::Srai => 0x400 + imm as u32,
        ImmOp::Addi | ImmOp::Slti | ImmOp::Sltiu | ImmOp::Xori | ImmOp::Ori | ImmOp::Andi =>
            unsigned(imm, 12),
    }
}

/// Bits 31..20 of the word of an operation on an immediate and the low 32 bits of a register.
fn imm_w_field(op: ImmWOp, imm: i32) -> u32
    requires { IsImmW op imm }
    ensures value { result ≡ imm_w_field op imm }
    ensures within { result < 2 ^ 12 }
{
    match op {
        ImmWOp::Slliw | ImmWOp::Srliw => imm as u32,
        ImmWOp::Sraiw => 0x400 + imm as u32,
        ImmWOp::Addiw => unsigned(imm, 12),
    }
}

// ---- the formats

/// An R-type word of its fields.
fn r_type(opcode: u32, rd: u8, funct3: u32, rs1: u8, rs2: u8, funct7: u32) -> u32
    requires opcode { opcode < 2 ^ 7 }
    requires rd { rd < 2 ^ 5 }
    requires funct3 { funct3 < 2 ^ 3 }
    requires rs1 { rs1 < 2 ^ 5 }
    requires rs2 { rs2 < 2 ^ 5 }
    requires funct7 { funct7 < 2 ^ 7 }
    ensures { result ≡ r_type opcode rd funct3 rs1 rs2 funct7 }
{
    opcode
        + ((rd as u32) << 7)
        + (funct3 << 12)
        + ((rs1 as u32) << 15)
        + ((rs2 as u32) << 20)
        + (funct7 << 25)
}

/// An I-type word of its fields; the immediate is its 12-bit form.
fn i_type(opcode: u32, rd: u8, funct3: u32, rs1: u8, imm: u32) -> u32
    requires opcode { opcode < 2 ^ 7 }
    requires rd { rd < 2 ^ 5 }
    requires funct3 { funct3 < 2 ^ 3 }
    requires rs1 { rs1 < 2 ^ 5 }
    requires imm { imm < 2 ^ 12 }
    ensures { result ≡ i_type opcode rd funct3 rs1 imm }
{
    opcode + ((rd as u32) << 7) + (funct3 << 12) + ((rs1 as u32) << 15) + (imm << 20)
}

/// An S-type word of its fields; the immediate is its 12-bit form.
fn s_type(opcode: u32, funct3: u32, rs1: u8, rs2: u8, imm: u32) -> u32
    requires opcode { opcode < 2 ^ 7 }
    requires funct3 { funct3 < 2 ^ 3 }
    requires rs1 { rs1 < 2 ^ 5 }
    requires rs2 { rs2 < 2 ^ 5 }
    requires imm { imm < 2 ^ 12 }
    ensures { result ≡ s_type opcode funct3 rs1 rs2 imm }
{
    r_type(
        opcode,
        bits(imm, 4, 0) as u8,
        funct3,
        rs1,
        rs2,
        bits(imm, 11, 5),
    )
}

/// A B-type word of its fields; the offset is its 13-bit form, and even.
fn b_type(opcode: u32, funct3: u32, rs1: u8, rs2: u8, offset: u32) -> u32
    requires opcode { opcode < 2 ^ 7 }
    requires funct3 { funct3 < 2 ^ 3 }
    requires rs1 { rs1 < 2 ^ 5 }
    requires rs2 { rs2 < 2 ^ 5 }
    ensures { result ≡ b_type opcode funct3 rs1 rs2 offset }
{
    let low = bits(offset, 11, 11) + (bits(offset, 4, 1) << 1);
    let high = bits(offset, 10, 5) + (bits(offset, 12, 12) << 6);
    r_type(opcode, low as u8, funct3, rs1, rs2, high)
}

/// A U-type word of its fields; the immediate is bits 31..12.
fn u_type(opcode: u32, rd: u8, imm: u32) -> u32
    requires opcode { opcode < 2 ^ 7 }
    requires rd { rd < 2 ^ 5 }
    requires imm { imm < 2 ^ 20 }
    ensures { result ≡ u_type opcode rd imm }
{
    opcode + ((rd as u32) << 7) + (imm << 12)
}

/// A J-type word of its fields; the offset is its 21-bit form, and even.
fn j_type(opcode: u32, rd: u8, offset: u32) -> u32
    requires opcode { opcode < 2 ^ 7 }
    requires rd { rd < 2 ^ 5 }
    ensures { result ≡ j_type opcode rd offset }
{
    let low = bits(offset, 19, 12) + (bits(offset, 11, 11) << 8);
    let high = (bits(offset, 10, 1) << 9) + (bits(offset, 20, 20) << 19);
    u_type(opcode, rd, low + high)
}
