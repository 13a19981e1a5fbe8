//! The words of a line of assembler text, and what a word may be: a number, a register, or the
//! name of an operation.
#![tactic(auto)]

pub mod name;
mod numeral;
mod operation;
mod register;
mod words;

pub use numeral::{is_decimal_digit, number};
pub use operation::{
    branch_named, imm_named, imm_w_named, load_named, reg_named, reg_w_named, store_named,
};
pub use register::register_named;
pub use words::{
    address_operands, before_open, behind_word, byte_at, content, first_word, inner_register,
    is_address, is_blank, one_word, three_operands, two_operands,
};
