//! The instructions of RV64IM as plain data: one variant a format, one operation a
//! mnemonic (RISC-V unprivileged manual, "RV32/64G Instruction Set Listings").

/// The condition of a branch.
#[derive(Clone, Copy, Debug, PartialEq, Eq)]
pub enum BranchOp {
    Beq,
    Bne,
    Blt,
    Bge,
    Bltu,
    Bgeu,
}

/// The width of a load, and whether it extends by the sign.
#[derive(Clone, Copy, Debug, PartialEq, Eq)]
pub enum LoadOp {
    Lb,
    Lh,
    Lw,
    Ld,
    Lbu,
    Lhu,
    Lwu,
}

/// The width of a store.
#[derive(Clone, Copy, Debug, PartialEq, Eq)]
pub enum StoreOp {
    Sb,
    Sh,
    Sw,
    Sd,
}

/// An operation on a register and an immediate.
#[derive(Clone, Copy, Debug, PartialEq, Eq)]
pub enum ImmOp {
    Addi,
    Slti,
    Sltiu,
    Xori,
    Ori,
    Andi,
    Slli,
    Srli,
    Srai,
}

/// An operation on two registers.
#[derive(Clone, Copy, Debug, PartialEq, Eq)]
pub enum RegOp {
    Add,
    Sub,
    Sll,
    Slt,
    Sltu,
    Xor,
    Srl,
    Sra,
    Or,
    And,
    Mul,
    Mulh,
    Mulhsu,
    Mulhu,
    Div,
    Divu,
    Rem,
    Remu,
}

/// An operation on the low 32 bits of a register and an immediate.
#[derive(Clone, Copy, Debug, PartialEq, Eq)]
pub enum ImmWOp {
    Addiw,
    Slliw,
    Srliw,
    Sraiw,
}

/// An operation on the low 32 bits of two registers.
#[derive(Clone, Copy, Debug, PartialEq, Eq)]
pub enum RegWOp {
    Addw,
    Subw,
    Sllw,
    Srlw,
    Sraw,
    Mulw,
    Divw,
    Divuw,
    Remw,
    Remuw,
}

/// An instruction with its operands. Which values the fields of an instruction may
/// have is said by `IsSound` of `specs/InstructionWord.antt`.
#[derive(Clone, Copy, Debug, PartialEq, Eq)]
pub enum Inst {
    /// `n` is bits 31..12 of the word.
    Lui {
        rd: u8,
        n: u32,
    },
    /// `n` is bits 31..12 of the word.
    Auipc {
        rd: u8,
        n: u32,
    },
    /// `offset` is in bytes, from the instruction's own address.
    Jal {
        rd: u8,
        offset: i32,
    },
    Jalr {
        rd: u8,
        rs1: u8,
        imm: i32,
    },
    /// `offset` is in bytes, from the instruction's own address.
    Branch {
        op: BranchOp,
        rs1: u8,
        rs2: u8,
        offset: i32,
    },
    Load {
        op: LoadOp,
        rd: u8,
        rs1: u8,
        imm: i32,
    },
    Store {
        op: StoreOp,
        rs1: u8,
        rs2: u8,
        imm: i32,
    },
    /// `imm` of a shift is its amount.
    OpImm {
        op: ImmOp,
        rd: u8,
        rs1: u8,
        imm: i32,
    },
    Op {
        op: RegOp,
        rd: u8,
        rs1: u8,
        rs2: u8,
    },
    /// `imm` of a shift is its amount.
    OpImmW {
        op: ImmWOp,
        rd: u8,
        rs1: u8,
        imm: i32,
    },
    OpW {
        op: RegWOp,
        rd: u8,
        rs1: u8,
        rs2: u8,
    },
    /// `n` is bits 31..20 of the word. A fence does nothing, whatever its other bits.
    Fence {
        rd: u8,
        rs1: u8,
        n: u32,
    },
    Ecall,
    Ebreak,
}
