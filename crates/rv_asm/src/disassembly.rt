//! Instruction words as assembler text.

ghost use Rattle.std.specs.Prelude.{◌≡◌, string_bytes, IfOk};
ghost use Rattle.rv_asm.specs.Disassembly as model;
ghost use Rattle.rv_asm.specs.WordLines.{line_text};

use crate::line::{WordLine, word_line};
use std::alloc::{AllocError, Global};

/// A word as a line of assembler text, without its end: the instruction that the word is, with
/// registers as `x0` to `x31`, other operands in decimal, and a comma and a space between two
/// operands; or `.word 0x` and eight hexadecimal digits where it is none.
///
/// The only error is that memory ran out.
pub fn disassemble(alloc: Global, w: u32) -> Result<String, AllocError>
    ensures { IfOk result (λ line. string_bytes line ≡ model.disassembly w) }
{
    let line = word_line(w);
    text_of(alloc, &line)
}

/// The text of a word's line.
fn text_of(alloc: Global, line: &WordLine) -> Result<String, AllocError>
    ensures { IfOk result (λ text. string_bytes text ≡ line_text line.now) }
{
    match *line {
        WordLine::Name { name } => String::from_str(alloc, name),
        WordLine::Upper { name, a, n } => upper_text(alloc, name, a, n),
        WordLine::Jump { name, a, z } => jump_text(alloc, name, a, z),
        WordLine::Address { name, a, z, b } => address_text(alloc, name, a, z, b),
        WordLine::TwoRegisters { name, a, b, z } => two_registers_text(alloc, name, a, b, z),
        WordLine::ThreeRegisters { name, a, b, c } => three_registers_text(alloc, name, a, b, c),
        WordLine::Fence { a, b, n } => fence_text(alloc, a, b, n),
        WordLine::Data { w } => data_text(alloc, w),
    }
}

/// The line of a word that is no instruction.
#[tactic(auto, using(crate::proofs::Digits::eight))]
fn data_text(alloc: Global, w: u32) -> Result<String, AllocError>
    ensures { IfOk result (λ line. string_bytes line ≡ model.data_text w) }
{
    format!(in alloc; ".word 0x{w:08x}")
}

// ---- a line of each shape

/// `NAME xA, N`.
fn upper_text(alloc: Global, name: &str, a: u8, n: u32) -> Result<String, AllocError>
    ensures { IfOk result (λ line. string_bytes line ≡ model.upper_text name.now a n) }
{
    format!(in alloc; "{name} x{a}, {n}")
}

/// `NAME xA, Z`.
fn jump_text(alloc: Global, name: &str, a: u8, z: i32) -> Result<String, AllocError>
    ensures { IfOk result (λ line. string_bytes line ≡ model.jump_text name.now a z) }
{
    format!(in alloc; "{name} x{a}, {z}")
}

/// `NAME xA, Z(xB)`.
fn address_text(alloc: Global, name: &str, a: u8, z: i32, b: u8) -> Result<String, AllocError>
    ensures { IfOk result (λ line. string_bytes line ≡ model.address_text name.now a z b) }
{
    format!(in alloc; "{name} x{a}, {z}(x{b})")
}

/// `NAME xA, xB, Z`.
fn two_registers_text(alloc: Global, name: &str, a: u8, b: u8, z: i32) -> Result<String, AllocError>
    ensures { IfOk result (λ line. string_bytes line ≡ model.two_registers_text name.now a b z) }
{
    format!(in alloc; "{name} x{a}, x{b}, {z}")
}

/// `NAME xA, xB, xC`.
fn three_registers_text(
    alloc: Global,
    name: &str,
    a: u8,
    b: u8,
    c: u8,
) -> Result<String, AllocError>
    ensures { IfOk result (λ line. string_bytes line ≡ model.three_registers_text name.now a b c) }
{
    format!(in alloc; "{name} x{a}, x{b}, x{c}")
}

/// `fence xA, xB, N`.
fn fence_text(alloc: Global, a: u8, b: u8, n: u32) -> Result<String, AllocError>
    ensures { IfOk result (λ line. string_bytes line ≡ model.fence_text a b n) }
{
    format!(in alloc; "fence x{a}, x{b}, {n}")
}
