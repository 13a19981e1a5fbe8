//! Instructions: a mnemonic and its operands.

ghost use Rattle.std.specs.Prelude.{◌≡◌};
ghost use Rattle.instruction_model.specs.InstructionWord.{IsSound, IsRegister};
ghost use Rattle.asm_lines.specs.Said.{told};
ghost use Rattle.asm_lines.specs.Statement as model;
ghost use Rattle.asm_lines.specs.declared.mnemonic.Mnemonic.TheVariants as mnemonics;

use crate::label::is_name;
use crate::operand::{
    even_number_in, one_register, register_and_address, register_of, three_registers, two_registers,
};
use crate::{AsmKind, Data, Mnemonic, Statement};
use asm_words::{is_blank, three_operands, two_operands};
use rv_code::{BranchOp, ImmOp, ImmWOp, Inst, LoadOp, RegOp, RegWOp, StoreOp, encode};

/// What an instruction says, from its mnemonic and the text of its operands, or its first fault.
pub(crate) fn instruction(mnemonic: Mnemonic, text: &[u8]) -> Result<Statement<'_>, AsmKind>
    ensures { told result ≡ model.instruction mnemonic text.now }
{
    match mnemonic {
        Mnemonic::Lui => lui(text),
        Mnemonic::Auipc => auipc(text),
        Mnemonic::Jal => jal(text),
        Mnemonic::Jalr => jalr(text),
        Mnemonic::Branch(op) => branch(op, text),
        Mnemonic::Load(op) => load(op, text),
        Mnemonic::Store(op) => store(op, text),
        Mnemonic::OpImm(op) => op_imm(op, text),
        Mnemonic::Op(op) => op_reg(op, text),
        Mnemonic::OpImmW(op) => op_imm_w(op, text),
        Mnemonic::OpW(op) => op_reg_w(op, text),
        Mnemonic::Fence => fence(text),
        Mnemonic::Ecall => alone(&Inst::Ecall, text),
        Mnemonic::Ebreak => alone(&Inst::Ebreak, text),
    }
}

// ---- instructions that may go to a label

/// A branch to a label, or by an offset in bytes, which is even and has 13 bits.
fn branch_to(op: BranchOp, rs1: u8, rs2: u8, to: &[u8]) -> Result<Statement<'_>, AsmKind>
    requires rs1 { IsRegister rs1 }
    requires rs2 { IsRegister rs2 }
    ensures { told result ≡ model.branch_to op rs1 rs2 to.now }
{
    if is_name(to) {
        return Ok(Statement::Data(Data::BranchTo {
            op,
            rs1,
            rs2,
            name: to,
        }));
    }
    let offset = even_number_in(-4096, 4095, to)?;
    Ok(Statement::Data(Data::Word(encode(&Inst::Branch {
        op,
        rs1,
        rs2,
        offset,
    }))))
}

/// A jump to a label, or by an offset in bytes, which is even and has 21 bits.
fn jump_to(rd: u8, to: &[u8]) -> Result<Statement<'_>, AsmKind>
    requires { IsRegister rd }
    ensures { told result ≡ model.jump_to rd to.now }
{
    if is_name(to) {
        return Ok(Statement::Data(Data::JumpTo { rd, name: to }));
    }
    let offset = even_number_in(-1_048_576, 1_048_575, to)?;
    Ok(Statement::Data(Data::Word(encode(&Inst::Jal { rd, offset }))))
}

/// `rs1, rs2, to`.
fn branch(op: BranchOp, text: &[u8]) -> Result<Statement<'_>, AsmKind>
    ensures { told result ≡ model.of_branch op text.now }
{
    let Some((first, second, to)) = three_operands(text) else {
        return Err(AsmKind::BadShape);
    };
    let rs1 = register_of(first)?;
    let rs2 = register_of(second)?;
    branch_to(op, rs1, rs2, to)
}

/// `rd, to`.
fn jal(text: &[u8]) -> Result<Statement<'_>, AsmKind>
    ensures { told result ≡ model.of_jump text.now }
{
    let Some((first, to)) = two_operands(text) else {
        return Err(AsmKind::BadShape);
    };
    let rd = register_of(first)?;
    jump_to(rd, to)
}

// ---- instructions that are words

/// An instruction without operands.
fn alone<'a>(inst: &Inst, text: &'a [u8]) -> Result<Statement<'a>, AsmKind>
    requires { IsSound inst.now }
    ensures { told result ≡ model.of_nothing inst.now text.now }
{
    if is_blank(text) {
        Ok(Statement::Data(Data::Word(encode(inst))))
    } else {
        Err(AsmKind::BadShape)
    }
}

/// `rd, n`, where `n` is bits 31..12 of the word.
fn lui(text: &[u8]) -> Result<Statement<'_>, AsmKind>
    ensures { told result ≡ model.instruction mnemonics.Lui text.now }
{
    let (rd, z) = one_register(0, 0xf_ffff, text)?;
    let n = z.unsigned_abs();
    Ok(Statement::Data(Data::Word(encode(&Inst::Lui { rd, n }))))
}

/// `rd, n`, where `n` is bits 31..12 of the word.
fn auipc(text: &[u8]) -> Result<Statement<'_>, AsmKind>
    ensures { told result ≡ model.instruction mnemonics.Auipc text.now }
{
    let (rd, z) = one_register(0, 0xf_ffff, text)?;
    let n = z.unsigned_abs();
    Ok(Statement::Data(Data::Word(encode(&Inst::Auipc { rd, n }))))
}

/// `rd, imm(rs1)`.
fn jalr(text: &[u8]) -> Result<Statement<'_>, AsmKind>
    ensures { told result ≡ model.instruction mnemonics.Jalr text.now }
{
    let (rd, rs1, imm) = register_and_address(text)?;
    Ok(Statement::Data(Data::Word(encode(&Inst::Jalr { rd, rs1, imm }))))
}

/// `rd, imm(rs1)`.
fn load(op: LoadOp, text: &[u8]) -> Result<Statement<'_>, AsmKind>
    ensures { told result ≡ model.instruction (mnemonics.Load op) text.now }
{
    let (rd, rs1, imm) = register_and_address(text)?;
    Ok(Statement::Data(Data::Word(encode(&Inst::Load { op, rd, rs1, imm }))))
}

/// `rs2, imm(rs1)`.
fn store(op: StoreOp, text: &[u8]) -> Result<Statement<'_>, AsmKind>
    ensures { told result ≡ model.instruction (mnemonics.Store op) text.now }
{
    let (rs2, rs1, imm) = register_and_address(text)?;
    Ok(Statement::Data(Data::Word(encode(&Inst::Store { op, rs1, rs2, imm }))))
}

/// `rd, rs1, imm`.
fn op_imm(op: ImmOp, text: &[u8]) -> Result<Statement<'_>, AsmKind>
    ensures { told result ≡ model.instruction (mnemonics.OpImm op) text.now }
{
    let (rd, rs1, imm) = two_registers(imm_low(op), imm_high(op), text)?;
    Ok(Statement::Data(Data::Word(encode(&Inst::OpImm { op, rd, rs1, imm }))))
}

/// `rd, rs1, rs2`.
fn op_reg(op: RegOp, text: &[u8]) -> Result<Statement<'_>, AsmKind>
    ensures { told result ≡ model.instruction (mnemonics.Op op) text.now }
{
    let (rd, rs1, rs2) = three_registers(text)?;
    Ok(Statement::Data(Data::Word(encode(&Inst::Op { op, rd, rs1, rs2 }))))
}

/// `rd, rs1, imm`.
fn op_imm_w(op: ImmWOp, text: &[u8]) -> Result<Statement<'_>, AsmKind>
    ensures { told result ≡ model.instruction (mnemonics.OpImmW op) text.now }
{
    let (rd, rs1, imm) = two_registers(imm_w_low(op), imm_w_high(op), text)?;
    Ok(Statement::Data(Data::Word(encode(&Inst::OpImmW { op, rd, rs1, imm }))))
}

/// `rd, rs1, rs2`.
fn op_reg_w(op: RegWOp, text: &[u8]) -> Result<Statement<'_>, AsmKind>
    ensures { told result ≡ model.instruction (mnemonics.OpW op) text.now }
{
    let (rd, rs1, rs2) = three_registers(text)?;
    Ok(Statement::Data(Data::Word(encode(&Inst::OpW { op, rd, rs1, rs2 }))))
}

/// `rd, rs1, n`, where `n` is bits 31..20 of the word.
fn fence(text: &[u8]) -> Result<Statement<'_>, AsmKind>
    ensures { told result ≡ model.instruction mnemonics.Fence text.now }
{
    let (rd, rs1, z) = two_registers(0, 4095, text)?;
    let n = z.unsigned_abs();
    Ok(Statement::Data(Data::Word(encode(&Inst::Fence { rd, rs1, n }))))
}

// ---- the ranges of immediates: a shift's amount is below the width, and others have 12 bits

/// The lowest immediate.
fn imm_low(op: ImmOp) -> i32
    ensures { result ≡ model.imm_low op }
{
    match op {
        ImmOp::Addi | ImmOp::Slti | ImmOp::Sltiu => -2048,
        ImmOp::Xori | ImmOp::Ori | ImmOp::Andi => -2048,
        ImmOp::Slli | ImmOp::Srli | ImmOp::Srai => 0,
    }
}

/// The highest immediate.
fn imm_high(op: ImmOp) -> i32
    ensures { result ≡ model.imm_high op }
{
    match op {
        ImmOp::Addi | ImmOp::Slti | ImmOp::Sltiu => 2047,
        ImmOp::Xori | ImmOp::Ori | ImmOp::Andi => 2047,
        ImmOp::Slli | ImmOp::Srli | ImmOp::Srai => 63,
    }
}

/// The lowest immediate of an operation on the low 32 bits.
fn imm_w_low(op: ImmWOp) -> i32
    ensures { result ≡ model.imm_w_low op }
{
    match op {
        ImmWOp::Addiw => -2048,
        ImmWOp::Slliw | ImmWOp::Srliw | ImmWOp::Sraiw => 0,
    }
}

/// The highest immediate of an operation on the low 32 bits.
fn imm_w_high(op: ImmWOp) -> i32
    ensures { result ≡ model.imm_w_high op }
{
    match op {
        ImmWOp::Addiw => 2047,
        ImmWOp::Slliw | ImmWOp::Srliw | ImmWOp::Sraiw => 31,
    }
}
