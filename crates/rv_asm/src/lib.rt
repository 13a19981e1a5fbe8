//! Assembler text of RV64IM programs.
#![tactic(auto)]

mod assembler;
mod disassembly;
mod fault;
mod line;

pub use asm_lines::AsmKind;
pub use assembler::assemble;
pub use disassembly::disassemble;
pub use fault::AsmFault;
pub use line::{WordLine, word_line};

#[cfg(test)]
mod worked;
