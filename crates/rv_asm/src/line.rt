//! The lines of instruction words, by their parts.

ghost use Rattle.std.specs.Prelude.{◌≡◌};
ghost use Rattle.rv_asm.specs.Disassembly as model;
ghost use Rattle.rv_asm.specs.WordLines.{line_text};

use asm_words::name;
use instruction_model::every_word;
use rv_code::{Inst, decode};

/// The line of a word, by its shape, with its parts in the order in which they are printed. Names
/// are those of the manual, and registers are numbers below 32.
#[derive(Clone, Copy, Debug, PartialEq, Eq)]
pub enum WordLine {
    /// `NAME`.
    Name {
        name: &'static str,
    },
    /// `NAME xA, N`.
    Upper {
        name: &'static str,
        a: u8,
        n: u32,
    },
    /// `NAME xA, Z`.
    Jump {
        name: &'static str,
        a: u8,
        z: i32,
    },
    /// `NAME xA, Z(xB)`.
    Address {
        name: &'static str,
        a: u8,
        z: i32,
        b: u8,
    },
    /// `NAME xA, xB, Z`.
    TwoRegisters {
        name: &'static str,
        a: u8,
        b: u8,
        z: i32,
    },
    /// `NAME xA, xB, xC`.
    ThreeRegisters {
        name: &'static str,
        a: u8,
        b: u8,
        c: u8,
    },
    /// `fence xA, xB, N`.
    Fence {
        a: u8,
        b: u8,
        n: u32,
    },
    /// `.word 0xW`, a word that is no instruction.
    Data {
        w: u32,
    },
}

/// The line of a word: that of the instruction which it is, or of data where it is none. It takes
/// no memory.
pub fn word_line(w: u32) -> WordLine
    ensures { line_text result ≡ model.disassembly w }
{
    every_word();
    match decode(w) {
        Some(inst) => instruction_line(&inst),
        None => WordLine::Data { w },
    }
}

/// The line of an instruction.
fn instruction_line(inst: &Inst) -> WordLine
    ensures { line_text result ≡ model.instruction_text inst.now }
{
    match *inst {
        Inst::Lui { rd, n } => upper("lui", rd, n),
        Inst::Auipc { rd, n } => upper("auipc", rd, n),
        Inst::Jal { rd, offset } => WordLine::Jump {
            name: "jal",
            a: rd,
            z: offset,
        },
        Inst::Jalr { rd, rs1, imm } => address("jalr", rd, imm, rs1),
        Inst::Branch {
            op,
            rs1,
            rs2,
            offset,
        } => two_registers(name::branch_name(op), rs1, rs2, offset),
        Inst::Load { op, rd, rs1, imm } => address(name::load_name(op), rd, imm, rs1),
        Inst::Store { op, rs1, rs2, imm } => address(name::store_name(op), rs2, imm, rs1),
        Inst::OpImm { op, rd, rs1, imm } => two_registers(name::imm_name(op), rd, rs1, imm),
        Inst::Op { op, rd, rs1, rs2 } => three_registers(name::reg_name(op), rd, rs1, rs2),
        Inst::OpImmW { op, rd, rs1, imm } => two_registers(name::imm_w_name(op), rd, rs1, imm),
        Inst::OpW { op, rd, rs1, rs2 } => three_registers(name::reg_w_name(op), rd, rs1, rs2),
        Inst::Fence { rd, rs1, n } => WordLine::Fence { a: rd, b: rs1, n },
        Inst::Ecall => WordLine::Name { name: "ecall" },
        Inst::Ebreak => WordLine::Name { name: "ebreak" },
    }
}

/// `NAME xA, N`.
fn upper(name: &'static str, a: u8, n: u32) -> WordLine
    ensures { line_text result ≡ model.upper_text name.now a n }
{
    WordLine::Upper { name, a, n }
}

/// `NAME xA, Z(xB)`.
fn address(name: &'static str, a: u8, z: i32, b: u8) -> WordLine
    ensures { line_text result ≡ model.address_text name.now a z b }
{
    WordLine::Address { name, a, z, b }
}

/// `NAME xA, xB, Z`.
fn two_registers(name: &'static str, a: u8, b: u8, z: i32) -> WordLine
    ensures { line_text result ≡ model.two_registers_text name.now a b z }
{
    WordLine::TwoRegisters { name, a, b, z }
}

/// `NAME xA, xB, xC`.
fn three_registers(name: &'static str, a: u8, b: u8, c: u8) -> WordLine
    ensures { line_text result ≡ model.three_registers_text name.now a b c }
{
    WordLine::ThreeRegisters { name, a, b, c }
}
