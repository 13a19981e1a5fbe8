//! The codes of operations, and the operations of codes.

ghost use Rattle.std.specs.Prelude.{◌≡◌, ◌<◌, ◌^◌};
ghost use Rattle.instruction_model.specs.Reading.{branch_op, load_op, store_op, imm_op, base_op};
ghost use Rattle.instruction_model.specs.Reading.{multiply_op, other_op, reg_op, imm_w_op};
ghost use Rattle.instruction_model.specs.Reading.{base_w_op, multiply_w_op, other_w_op, reg_w_op};
ghost use Rattle.instruction_model.specs.InstructionWord.{branch_funct3, load_funct3, store_funct3};
ghost use Rattle.instruction_model.specs.InstructionWord.{imm_funct3, reg_funct3, reg_funct7};
ghost use Rattle.instruction_model.specs.InstructionWord.{imm_w_funct3, reg_w_funct3, reg_w_funct7};

use crate::{BranchOp, ImmOp, ImmWOp, LoadOp, RegOp, RegWOp, StoreOp};

/// The branch with this funct3.
pub(crate) fn branch_op(funct3: u32) -> Option<BranchOp>
    ensures { result ≡ branch_op funct3 }
{
    match funct3 {
        0 => Some(BranchOp::Beq),
        1 => Some(BranchOp::Bne),
        4 => Some(BranchOp::Blt),
        5 => Some(BranchOp::Bge),
        6 => Some(BranchOp::Bltu),
        7 => Some(BranchOp::Bgeu),
        _ => None,
    }
}

/// The load with this funct3.
pub(crate) fn load_op(funct3: u32) -> Option<LoadOp>
    ensures { result ≡ load_op funct3 }
{
    match funct3 {
        0 => Some(LoadOp::Lb),
        1 => Some(LoadOp::Lh),
        2 => Some(LoadOp::Lw),
        3 => Some(LoadOp::Ld),
        4 => Some(LoadOp::Lbu),
        5 => Some(LoadOp::Lhu),
        6 => Some(LoadOp::Lwu),
        _ => None,
    }
}

/// The store with this funct3.
pub(crate) fn store_op(funct3: u32) -> Option<StoreOp>
    ensures { result ≡ store_op funct3 }
{
    match funct3 {
        0 => Some(StoreOp::Sb),
        1 => Some(StoreOp::Sh),
        2 => Some(StoreOp::Sw),
        3 => Some(StoreOp::Sd),
        _ => None,
    }
}

/// The operation on an immediate with this funct3, and for a shift with these upper six bits
/// of the word.
pub(crate) fn imm_op(funct3: u32, funct6: u32) -> Option<ImmOp>
    ensures { result ≡ imm_op funct3 funct6 }
{
    match funct3 {
        0 => Some(ImmOp::Addi),
        1 if funct6 == 0 => Some(ImmOp::Slli),
        2 => Some(ImmOp::Slti),
        3 => Some(ImmOp::Sltiu),
        4 => Some(ImmOp::Xori),
        5 if funct6 == 0 => Some(ImmOp::Srli),
        5 if funct6 == 0x10 => Some(ImmOp::Srai),
        6 => Some(ImmOp::Ori),
        7 => Some(ImmOp::Andi),
        _ => None,
    }
}

/// The operation on two registers with these codes.
pub(crate) fn reg_op(funct3: u32, funct7: u32) -> Option<RegOp>
    ensures { result ≡ reg_op funct3 funct7 }
{
    match funct7 {
        0 => base_op(funct3),
        1 => multiply_op(funct3),
        0x20 => other_op(funct3),
        _ => None,
    }
}

/// The operation of the base set, funct7 0, or none.
#[inline]
fn base_op(funct3: u32) -> Option<RegOp>
    ensures { result ≡ base_op funct3 }
{
    match funct3 {
        0 => Some(RegOp::Add),
        1 => Some(RegOp::Sll),
        2 => Some(RegOp::Slt),
        3 => Some(RegOp::Sltu),
        4 => Some(RegOp::Xor),
        5 => Some(RegOp::Srl),
        6 => Some(RegOp::Or),
        7 => Some(RegOp::And),
        _ => None,
    }
}

/// The operation of the M extension, funct7 1.
#[inline]
fn multiply_op(funct3: u32) -> Option<RegOp>
    ensures { result ≡ multiply_op funct3 }
{
    match funct3 {
        0 => Some(RegOp::Mul),
        1 => Some(RegOp::Mulh),
        2 => Some(RegOp::Mulhsu),
        3 => Some(RegOp::Mulhu),
        4 => Some(RegOp::Div),
        5 => Some(RegOp::Divu),
        6 => Some(RegOp::Rem),
        7 => Some(RegOp::Remu),
        _ => None,
    }
}

/// The operation with funct7 32, SUB or SRA, or none.
#[inline]
fn other_op(funct3: u32) -> Option<RegOp>
    ensures { result ≡ other_op funct3 }
{
    match funct3 {
        0 => Some(RegOp::Sub),
        5 => Some(RegOp::Sra),
        _ => None,
    }
}

/// The operation on an immediate and the low 32 bits of a register with this funct3, and for
/// a shift with these upper seven bits of the word.
pub(crate) fn imm_w_op(funct3: u32, funct7: u32) -> Option<ImmWOp>
    ensures { result ≡ imm_w_op funct3 funct7 }
{
    match funct3 {
        0 => Some(ImmWOp::Addiw),
        1 if funct7 == 0 => Some(ImmWOp::Slliw),
        5 if funct7 == 0 => Some(ImmWOp::Srliw),
        5 if funct7 == 0x20 => Some(ImmWOp::Sraiw),
        _ => None,
    }
}

/// The operation on the low 32 bits of two registers with these codes.
pub(crate) fn reg_w_op(funct3: u32, funct7: u32) -> Option<RegWOp>
    ensures { result ≡ reg_w_op funct3 funct7 }
{
    match funct7 {
        0 => base_w_op(funct3),
        1 => multiply_w_op(funct3),
        0x20 => other_w_op(funct3),
        _ => None,
    }
}

/// The W operation of the base set, funct7 0, or none.
#[inline]
fn base_w_op(funct3: u32) -> Option<RegWOp>
    ensures { result ≡ base_w_op funct3 }
{
    match funct3 {
        0 => Some(RegWOp::Addw),
        1 => Some(RegWOp::Sllw),
        5 => Some(RegWOp::Srlw),
        _ => None,
    }
}

/// The W operation of the M extension, funct7 1, or none.
#[inline]
fn multiply_w_op(funct3: u32) -> Option<RegWOp>
    ensures { result ≡ multiply_w_op funct3 }
{
    match funct3 {
        0 => Some(RegWOp::Mulw),
        4 => Some(RegWOp::Divw),
        5 => Some(RegWOp::Divuw),
        6 => Some(RegWOp::Remw),
        7 => Some(RegWOp::Remuw),
        _ => None,
    }
}

/// The W operation with funct7 32, SUBW or SRAW, or none.
#[inline]
fn other_w_op(funct3: u32) -> Option<RegWOp>
    ensures { result ≡ other_w_op funct3 }
{
    match funct3 {
        0 => Some(RegWOp::Subw),
        5 => Some(RegWOp::Sraw),
        _ => None,
    }
}

/// The funct3 of an operation.
pub(crate) fn branch_funct3(op: BranchOp) -> u32
    ensures value { result ≡ branch_funct3 op }
    ensures within { result < 2 ^ 3 }
{
    match op {
        BranchOp::Beq => 0,
        BranchOp::Bne => 1,
        BranchOp::Blt => 4,
        BranchOp::Bge => 5,
        BranchOp::Bltu => 6,
        BranchOp::Bgeu => 7,
    }
}

/// The funct3 of an operation.
pub(crate) fn load_funct3(op: LoadOp) -> u32
    ensures value { result ≡ load_funct3 op }
    ensures within { result < 2 ^ 3 }
{
    match op {
        LoadOp::Lb => 0,
        LoadOp::Lh => 1,
        LoadOp::Lw => 2,
        LoadOp::Ld => 3,
        LoadOp::Lbu => 4,
        LoadOp::Lhu => 5,
        LoadOp::Lwu => 6,
    }
}

/// The funct3 of an operation.
pub(crate) fn store_funct3(op: StoreOp) -> u32
    ensures value { result ≡ store_funct3 op }
    ensures within { result < 2 ^ 3 }
{
    match op {
        StoreOp::Sb => 0,
        StoreOp::Sh => 1,
        StoreOp::Sw => 2,
        StoreOp::Sd => 3,
    }
}

/// The funct3 of an operation.
pub(crate) fn imm_funct3(op: ImmOp) -> u32
    ensures value { result ≡ imm_funct3 op }
    ensures within { result < 2 ^ 3 }
{
    match op {
        ImmOp::Addi => 0,
        ImmOp::Slli => 1,
        ImmOp::Slti => 2,
        ImmOp::Sltiu => 3,
        ImmOp::Xori => 4,
        ImmOp::Srli | ImmOp::Srai => 5,
        ImmOp::Ori => 6,
        ImmOp::Andi => 7,
    }
}

/// The funct3 of an operation.
pub(crate) fn reg_funct3(op: RegOp) -> u32
    ensures value { result ≡ reg_funct3 op }
    ensures within { result < 2 ^ 3 }
{
    match op {
        RegOp::Add | RegOp::Sub | RegOp::Mul => 0,
        RegOp::Sll | RegOp::Mulh => 1,
        RegOp::Slt | RegOp::Mulhsu => 2,
        RegOp::Sltu | RegOp::Mulhu => 3,
        RegOp::Xor | RegOp::Div => 4,
        RegOp::Srl | RegOp::Sra | RegOp::Divu => 5,
        RegOp::Or | RegOp::Rem => 6,
        RegOp::And | RegOp::Remu => 7,
    }
}

/// The funct7 of an operation.
pub(crate) fn reg_funct7(op: RegOp) -> u32
    ensures value { result ≡ reg_funct7 op }
    ensures within { result < 2 ^ 7 }
{
    match op {
        RegOp::Add
        | RegOp::Sll
        | RegOp::Slt
        | RegOp::Sltu
        | RegOp::Xor
        | RegOp::Srl
        | RegOp::Or
        | RegOp::And => 0,
        RegOp::Mul
        | RegOp::Mulh
        | RegOp::Mulhsu
        | RegOp::Mulhu
        | RegOp::Div
        | RegOp::Divu
        | RegOp::Rem
        | RegOp::Remu => 1,
        RegOp::Sub | RegOp::Sra => 0x20,
    }
}

/// The funct3 of an operation.
pub(crate) fn imm_w_funct3(op: ImmWOp) -> u32
    ensures value { result ≡ imm_w_funct3 op }
    ensures within { result < 2 ^ 3 }
{
    match op {
        ImmWOp::Addiw => 0,
        ImmWOp::Slliw => 1,
        ImmWOp::Srliw | ImmWOp::Sraiw => 5,
    }
}

/// The funct3 of an operation.
pub(crate) fn reg_w_funct3(op: RegWOp) -> u32
    ensures value { result ≡ reg_w_funct3 op }
    ensures within { result < 2 ^ 3 }
{
    match op {
        RegWOp::Addw | RegWOp::Subw | RegWOp::Mulw => 0,
        RegWOp::Sllw => 1,
        RegWOp::Divw => 4,
        RegWOp::Srlw | RegWOp::Sraw | RegWOp::Divuw => 5,
        RegWOp::Remw => 6,
        RegWOp::Remuw => 7,
    }
}

/// The funct7 of an operation.
pub(crate) fn reg_w_funct7(op: RegWOp) -> u32
    ensures value { result ≡ reg_w_funct7 op }
    ensures within { result < 2 ^ 7 }
{
    match op {
        RegWOp::Addw | RegWOp::Sllw | RegWOp::Srlw => 0,
        RegWOp::Mulw | RegWOp::Divw | RegWOp::Divuw | RegWOp::Remw | RegWOp::Remuw => 1,
        RegWOp::Subw | RegWOp::Sraw => 0x20,
    }
}
