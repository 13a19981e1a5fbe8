//! `asm` and `dis`: assembler text from the source becomes an ELF file, and an ELF file a listing
//! of its words.
#![tactic(auto)]

mod assembler;
mod cause;
mod converting;
mod disassembler;
mod lines;
mod listing;

pub use cause::AsmCause;
pub use converting::{asm, dis};
