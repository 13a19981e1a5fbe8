//! Instruction words of RV64IM and the instructions that they spell (RISC-V unprivileged
//! manual, "RV32/64G Instruction Set Listings").
#![tactic(auto)]

mod decoder;
mod encoder;
mod field;
mod operation;
mod sound;

pub use decoder::decode;
pub use encoder::encode;
pub use instruction_model::{BranchOp, ImmOp, ImmWOp, Inst, LoadOp, RegOp, RegWOp, StoreOp};
pub use sound::is_sound;
