//! The arithmetic of RV64IM on words, as total functions: RISC-V unprivileged manual,
//! "RV64I Base Integer Instruction Set" and "M Extension for Integer Multiplication
//! and Division". Each function is proved to give the value of the definition of its
//! name in `instruction_model`.
#![tactic(auto)]

mod low;
mod product;
mod quotient;
mod whole;

pub use low::{addw, divuw, divw, mulw, remuw, remw, sllw, sraw, srlw, subw};
pub use product::{mul, mulh, mulhsu, mulhu};
pub use quotient::{div, divu, rem, remu};
pub use whole::{add, and, or, sll, slt, sltu, sra, srl, sub, xor};

#[cfg(test)]
mod tests;
