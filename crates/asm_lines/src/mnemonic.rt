//! What the first word of a line may name.

ghost use Rattle.std.specs.Prelude.{◌≡◌};
ghost use Rattle.asm_lines.specs.Statement as model;

use asm_words::{
    branch_named, imm_named, imm_w_named, load_named, reg_named, reg_w_named, store_named,
};
use rv_code::{BranchOp, ImmOp, ImmWOp, LoadOp, RegOp, RegWOp, StoreOp};

/// What an instruction is called.
#[derive(Clone, Copy)]
pub enum Mnemonic {
    Lui,
    Auipc,
    Jal,
    Jalr,
    Branch(BranchOp),
    Load(LoadOp),
    Store(StoreOp),
    OpImm(ImmOp),
    Op(RegOp),
    OpImmW(ImmWOp),
    OpW(RegWOp),
    Fence,
    Ecall,
    Ebreak,
}

/// What a directive is called, without its dot.
#[derive(Clone, Copy)]
pub enum Directive {
    Segment,
    Entry,
    Word,
    Byte,
    Zero,
}

/// The mnemonic that a word is, of those that stand for one instruction only, or none.
fn single_mnemonic(word: &[u8]) -> Option<Mnemonic>
    ensures { result ≡ model.single_mnemonic word.now }
{
    match word {
        b"lui" => Some(Mnemonic::Lui),
        b"auipc" => Some(Mnemonic::Auipc),
        b"jal" => Some(Mnemonic::Jal),
        b"jalr" => Some(Mnemonic::Jalr),
        b"fence" => Some(Mnemonic::Fence),
        b"ecall" => Some(Mnemonic::Ecall),
        b"ebreak" => Some(Mnemonic::Ebreak),
        _ => None,
    }
}

/// The mnemonic that a word is, or none.
pub(crate) fn mnemonic_named(word: &[u8]) -> Option<Mnemonic>
    ensures { result ≡ model.mnemonic word.now }
{
    if let Some(mnemonic) = single_mnemonic(word) {
        return Some(mnemonic);
    }
    if let Some(op) = branch_named(word) {
        return Some(Mnemonic::Branch(op));
    }
    if let Some(op) = load_named(word) {
        return Some(Mnemonic::Load(op));
    }
    if let Some(op) = store_named(word) {
        return Some(Mnemonic::Store(op));
    }
    if let Some(op) = imm_named(word) {
        return Some(Mnemonic::OpImm(op));
    }
    if let Some(op) = reg_named(word) {
        return Some(Mnemonic::Op(op));
    }
    if let Some(op) = imm_w_named(word) {
        return Some(Mnemonic::OpImmW(op));
    }
    let op = reg_w_named(word)?;
    Some(Mnemonic::OpW(op))
}

/// The directive that a word is, or none.
pub(crate) fn directive_named(word: &[u8]) -> Option<Directive>
    ensures { result ≡ model.directive word.now }
{
    match word {
        b".segment" => Some(Directive::Segment),
        b".entry" => Some(Directive::Entry),
        b".word" => Some(Directive::Word),
        b".byte" => Some(Directive::Byte),
        b".zero" => Some(Directive::Zero),
        _ => None,
    }
}
