//! The operation that a word names, in lower-case letters.

ghost use Rattle.std.specs.Prelude.{◌≡◌};
ghost use Rattle.asm_words.specs.Named as model;

use instruction_model::{BranchOp, ImmOp, ImmWOp, LoadOp, RegOp, RegWOp, StoreOp};

/// The branch that a word names, or none.
pub fn branch_named(word: &[u8]) -> Option<BranchOp>
    ensures { result ≡ model.branch_named word.now }
{
    match word {
        b"beq" => Some(BranchOp::Beq),
        b"bne" => Some(BranchOp::Bne),
        b"blt" => Some(BranchOp::Blt),
        b"bge" => Some(BranchOp::Bge),
        b"bltu" => Some(BranchOp::Bltu),
        b"bgeu" => Some(BranchOp::Bgeu),
        _ => None,
    }
}

/// The load that a word names, or none.
pub fn load_named(word: &[u8]) -> Option<LoadOp>
    ensures { result ≡ model.load_named word.now }
{
    match word {
        b"lb" => Some(LoadOp::Lb),
        b"lh" => Some(LoadOp::Lh),
        b"lw" => Some(LoadOp::Lw),
        b"ld" => Some(LoadOp::Ld),
        b"lbu" => Some(LoadOp::Lbu),
        b"lhu" => Some(LoadOp::Lhu),
        b"lwu" => Some(LoadOp::Lwu),
        _ => None,
    }
}

/// The store that a word names, or none.
pub fn store_named(word: &[u8]) -> Option<StoreOp>
    ensures { result ≡ model.store_named word.now }
{
    match word {
        b"sb" => Some(StoreOp::Sb),
        b"sh" => Some(StoreOp::Sh),
        b"sw" => Some(StoreOp::Sw),
        b"sd" => Some(StoreOp::Sd),
        _ => None,
    }
}

/// The operation on a register and an immediate that a word names, or none.
pub fn imm_named(word: &[u8]) -> Option<ImmOp>
    ensures { result ≡ model.imm_named word.now }
{
    match word {
        b"addi" => Some(ImmOp::Addi),
        b"slti" => Some(ImmOp::Slti),
        b"sltiu" => Some(ImmOp::Sltiu),
        b"xori" => Some(ImmOp::Xori),
        b"ori" => Some(ImmOp::Ori),
        b"andi" => Some(ImmOp::Andi),
        b"slli" => Some(ImmOp::Slli),
        b"srli" => Some(ImmOp::Srli),
        b"srai" => Some(ImmOp::Srai),
        _ => None,
    }
}

/// The operation on two registers that a word names, of the base, or none.
fn base_named(word: &[u8]) -> Option<RegOp>
    ensures { result ≡ model.base_named word.now }
{
    match word {
        b"add" => Some(RegOp::Add),
        b"sub" => Some(RegOp::Sub),
        b"sll" => Some(RegOp::Sll),
        b"slt" => Some(RegOp::Slt),
        b"sltu" => Some(RegOp::Sltu),
        b"xor" => Some(RegOp::Xor),
        b"srl" => Some(RegOp::Srl),
        b"sra" => Some(RegOp::Sra),
        b"or" => Some(RegOp::Or),
        b"and" => Some(RegOp::And),
        _ => None,
    }
}

/// The operation on two registers that a word names, of the extension for multiplication, or none.
fn product_named(word: &[u8]) -> Option<RegOp>
    ensures { result ≡ model.product_named word.now }
{
    match word {
        b"mul" => Some(RegOp::Mul),
        b"mulh" => Some(RegOp::Mulh),
        b"mulhsu" => Some(RegOp::Mulhsu),
        b"mulhu" => Some(RegOp::Mulhu),
        b"div" => Some(RegOp::Div),
        b"divu" => Some(RegOp::Divu),
        b"rem" => Some(RegOp::Rem),
        b"remu" => Some(RegOp::Remu),
        _ => None,
    }
}

/// The operation on two registers that a word names, or none.
pub fn reg_named(word: &[u8]) -> Option<RegOp>
    ensures { result ≡ model.reg_named word.now }
{
    match base_named(word) {
        Some(op) => Some(op),
        None => product_named(word),
    }
}

/// The operation on the low 32 bits of a register and an immediate that a word names, or none.
pub fn imm_w_named(word: &[u8]) -> Option<ImmWOp>
    ensures { result ≡ model.imm_w_named word.now }
{
    match word {
        b"addiw" => Some(ImmWOp::Addiw),
        b"slliw" => Some(ImmWOp::Slliw),
        b"srliw" => Some(ImmWOp::Srliw),
        b"sraiw" => Some(ImmWOp::Sraiw),
        _ => None,
    }
}

/// The operation on the low 32 bits of two registers that a word names, or none.
pub fn reg_w_named(word: &[u8]) -> Option<RegWOp>
    ensures { result ≡ model.reg_w_named word.now }
{
    match word {
        b"addw" => Some(RegWOp::Addw),
        b"subw" => Some(RegWOp::Subw),
        b"sllw" => Some(RegWOp::Sllw),
        b"srlw" => Some(RegWOp::Srlw),
        b"sraw" => Some(RegWOp::Sraw),
        b"mulw" => Some(RegWOp::Mulw),
        b"divw" => Some(RegWOp::Divw),
        b"divuw" => Some(RegWOp::Divuw),
        b"remw" => Some(RegWOp::Remw),
        b"remuw" => Some(RegWOp::Remuw),
        _ => None,
    }
}
