//! Values of instructions: what an operation gives, how many bytes a load or a store takes, and
//! whether a branch is taken (RISC-V unprivileged manual, "RV64I Base Integer Instruction Set"
//! and "M Extension for Integer Multiplication and Division"). They know of no machine.

ghost use Rattle.std.specs.Prelude.{◌≡◌, ◌^◌, ◌<◌};
ghost use Rattle.instruction_model.specs.Word as word;
ghost use Rattle.machine_model.specs.Instruction as model;

use instruction_model::{BranchOp, ImmOp, ImmWOp, LoadOp, RegOp, RegWOp, StoreOp};
use rv_base::{
    add, addw, and, div, divu, divuw, divw, mul, mulh, mulhsu, mulhu, mulw, or, rem, remu, remuw,
    remw, sll, sllw, slt, sltu, sra, sraw, srl, srlw, sub, subw, xor,
};

/// An immediate, or a branch's offset, as a word.
#[inline]
pub fn immediate_word(imm: i32) -> u64
    ensures { result ≡ word.as_word imm }
{
    i64::from(imm).cast_unsigned()
}

/// The value of an operation on a register's word and an immediate.
#[inline]
pub fn imm_value(op: ImmOp, a: u64, imm: i32) -> u64
    ensures { result ≡ model.imm_value op a imm }
{
    let b = immediate_word(imm);
    match op {
        ImmOp::Addi => add(a, b),
        ImmOp::Slti => slt(a, b),
        ImmOp::Sltiu => sltu(a, b),
        ImmOp::Xori => xor(a, b),
        ImmOp::Ori => or(a, b),
        ImmOp::Andi => and(a, b),
        ImmOp::Slli => sll(a, b),
        ImmOp::Srli => srl(a, b),
        ImmOp::Srai => sra(a, b),
    }
}

/// The value of an operation on the low 32 bits of a register's word and an immediate.
#[inline]
pub fn imm_w_value(op: ImmWOp, a: u64, imm: i32) -> u64
    ensures { result ≡ model.imm_w_value op a imm }
{
    let b = immediate_word(imm);
    match op {
        ImmWOp::Addiw => addw(a, b),
        ImmWOp::Slliw => sllw(a, b),
        ImmWOp::Srliw => srlw(a, b),
        ImmWOp::Sraiw => sraw(a, b),
    }
}

/// The value of an operation on two registers' words.
#[inline]
pub fn reg_value(op: RegOp, a: u64, b: u64) -> u64
    ensures { result ≡ model.reg_value op a b }
{
    match op {
        RegOp::Add => add(a, b),
        RegOp::Sub => sub(a, b),
        RegOp::Sll => sll(a, b),
        RegOp::Slt => slt(a, b),
        RegOp::Sltu => sltu(a, b),
        RegOp::Xor => xor(a, b),
        RegOp::Srl => srl(a, b),
        RegOp::Sra => sra(a, b),
        RegOp::Or => or(a, b),
        RegOp::And => and(a, b),
        RegOp::Mul => mul(a, b),
        RegOp::Mulh => mulh(a, b),
        RegOp::Mulhsu => mulhsu(a, b),
        RegOp::Mulhu => mulhu(a, b),
        RegOp::Div => div(a, b),
        RegOp::Divu => divu(a, b),
        RegOp::Rem => rem(a, b),
        RegOp::Remu => remu(a, b),
    }
}

/// The value of an operation on the low 32 bits of two registers' words.
#[inline]
pub fn reg_w_value(op: RegWOp, a: u64, b: u64) -> u64
    ensures { result ≡ model.reg_w_value op a b }
{
    match op {
        RegWOp::Addw => addw(a, b),
        RegWOp::Subw => subw(a, b),
        RegWOp::Sllw => sllw(a, b),
        RegWOp::Srlw => srlw(a, b),
        RegWOp::Sraw => sraw(a, b),
        RegWOp::Mulw => mulw(a, b),
        RegWOp::Divw => divw(a, b),
        RegWOp::Divuw => divuw(a, b),
        RegWOp::Remw => remw(a, b),
        RegWOp::Remuw => remuw(a, b),
    }
}

/// Bits 31..12 of the word, as the upper bits of a signed 32-bit number.
#[inline]
pub fn upper_value(n: u32) -> u64
    requires { n < 2 ^ 20 }
    ensures { result ≡ model.upper_value n }
{
    i64::from((n << 12).cast_signed()).cast_unsigned()
}

/// Whether a branch is taken, by two registers' words.
#[inline]
pub fn is_taken(op: BranchOp, a: u64, b: u64) -> bool
    ensures { result ≡ model.is_taken op a b }
{
    match op {
        BranchOp::Beq => a == b,
        BranchOp::Bne => a != b,
        BranchOp::Blt => a.cast_signed() < b.cast_signed(),
        BranchOp::Bge => a.cast_signed() >= b.cast_signed(),
        BranchOp::Bltu => a < b,
        BranchOp::Bgeu => a >= b,
    }
}

/// How many bytes a load reads.
#[inline]
pub fn load_size(op: LoadOp) -> u8
    ensures { result ≡ model.load_size op }
{
    match op {
        LoadOp::Lb | LoadOp::Lbu => 1,
        LoadOp::Lh | LoadOp::Lhu => 2,
        LoadOp::Lw | LoadOp::Lwu => 4,
        LoadOp::Ld => 8,
    }
}

/// How many bytes a store writes.
#[inline]
pub fn store_size(op: StoreOp) -> u8
    ensures { result ≡ model.store_size op }
{
    match op {
        StoreOp::Sb => 1,
        StoreOp::Sh => 2,
        StoreOp::Sw => 4,
        StoreOp::Sd => 8,
    }
}

/// The word of a number that a load read, extended by its sign or by zeros. No number that is
/// read has more bytes than the load takes; of one that had, the definition says what `min` gives.
#[inline]
pub fn load_value(op: LoadOp, n: u64) -> u64
    ensures { result ≡ model.load_value op n }
{
    match op {
        LoadOp::Lb => i64::from((n.min(0xff) as u8).cast_signed()).cast_unsigned(),
        LoadOp::Lh => i64::from((n.min(0xffff) as u16).cast_signed()).cast_unsigned(),
        LoadOp::Lw => i64::from((n.min(0xffff_ffff) as u32).cast_signed()).cast_unsigned(),
        LoadOp::Ld | LoadOp::Lbu | LoadOp::Lhu | LoadOp::Lwu => n,
    }
}
