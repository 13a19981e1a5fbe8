//! What words and instructions mean: the instructions of RV64IM as plain data, and in `specs/`
//! the value of each operation, the table of instruction words, and how a word is read.
//! `word_laws` shows that the table means what it should.
#![tactic(auto)]

mod instruction;
mod word_laws;

pub use instruction::{BranchOp, ImmOp, ImmWOp, Inst, LoadOp, RegOp, RegWOp, StoreOp};
pub use word_laws::{every_word, one_instruction, one_word};
