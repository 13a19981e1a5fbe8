//! The names of operations (RISC-V unprivileged manual, "RV32/64G Instruction Set Listings").

ghost use Rattle.std.specs.Prelude.{◌≡◌};
ghost use Rattle.asm_words.specs.Names as names;

use instruction_model::{BranchOp, ImmOp, ImmWOp, LoadOp, RegOp, RegWOp, StoreOp};

/// The name of a branch, in lower case.
pub fn branch_name(op: BranchOp) -> &'static str
    ensures { result.now ≡ names.branch_name op }
{
    match op {
        BranchOp::Beq => "beq",
        BranchOp::Bne => "bne",
        BranchOp::Blt => "blt",
        BranchOp::Bge => "bge",
        BranchOp::Bltu => "bltu",
        BranchOp::Bgeu => "bgeu",
    }
}

/// The name of a load, in lower case.
pub fn load_name(op: LoadOp) -> &'static str
    ensures { result.now ≡ names.load_name op }
{
    match op {
        LoadOp::Lb => "lb",
        LoadOp::Lh => "lh",
        LoadOp::Lw => "lw",
        LoadOp::Ld => "ld",
        LoadOp::Lbu => "lbu",
        LoadOp::Lhu => "lhu",
        LoadOp::Lwu => "lwu",
    }
}

/// The name of a store, in lower case.
pub fn store_name(op: StoreOp) -> &'static str
    ensures { result.now ≡ names.store_name op }
{
    match op {
        StoreOp::Sb => "sb",
        StoreOp::Sh => "sh",
        StoreOp::Sw => "sw",
        StoreOp::Sd => "sd",
    }
}

/// The name of an operation on a register and an immediate, in lower case.
pub fn imm_name(op: ImmOp) -> &'static str
    ensures { result.now ≡ names.imm_name op }
{
    match op {
        ImmOp::Addi => "addi",
        ImmOp::Slti => "slti",
        ImmOp::Sltiu => "sltiu",
        ImmOp::Xori => "xori",
        ImmOp::Ori => "ori",
        ImmOp::Andi => "andi",
        ImmOp::Slli => "slli",
        ImmOp::Srli => "srli",
        ImmOp::Srai => "srai",
    }
}

/// The name of an operation on two registers, in lower case.
pub fn reg_name(op: RegOp) -> &'static str
    ensures { result.now ≡ names.reg_name op }
{
    match op {
        RegOp::Add => "add",
        RegOp::Sub => "sub",
        RegOp::Sll => "sll",
        RegOp::Slt => "slt",
        RegOp::Sltu => "sltu",
        RegOp::Xor => "xor",
        RegOp::Srl => "srl",
        RegOp::Sra => "sra",
        RegOp::Or => "or",
        RegOp::And => "and",
        RegOp::Mul => "mul",
        RegOp::Mulh => "mulh",
        RegOp::Mulhsu => "mulhsu",
        RegOp::Mulhu => "mulhu",
        RegOp::Div => "div",
        RegOp::Divu => "divu",
        RegOp::Rem => "rem",
        RegOp::Remu => "remu",
    }
}

/// The name of an operation on the low 32 bits of a register and an immediate, in lower case.
pub fn imm_w_name(op: ImmWOp) -> &'static str
    ensures { result.now ≡ names.imm_w_name op }
{
    match op {
        ImmWOp::Addiw => "addiw",
        ImmWOp::Slliw => "slliw",
        ImmWOp::Srliw => "srliw",
        ImmWOp::Sraiw => "sraiw",
    }
}

/// The name of an operation on the low 32 bits of two registers, in lower case.
pub fn reg_w_name(op: RegWOp) -> &'static str
    ensures { result.now ≡ names.reg_w_name op }
{
    match op {
        RegWOp::Addw => "addw",
        RegWOp::Subw => "subw",
        RegWOp::Sllw => "sllw",
        RegWOp::Srlw => "srlw",
        RegWOp::Sraw => "sraw",
        RegWOp::Mulw => "mulw",
        RegWOp::Divw => "divw",
        RegWOp::Divuw => "divuw",
        RegWOp::Remw => "remw",
        RegWOp::Remuw => "remuw",
    }
}
