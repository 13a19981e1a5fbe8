//! What one line of assembler text says.
#![tactic(auto)]

mod directive;
mod fault;
mod instruction;
mod label;
mod line;
mod mnemonic;
mod operand;

pub use fault::AsmKind;
pub use line::{Data, Statement, read_statement};
pub use mnemonic::{Directive, Mnemonic};
