//! The registers: `x0` to `x31`, or their names (RISC-V ELF psABI, "Integer Register Convention").

ghost use Rattle.std.specs.Prelude.{◌≡◌, ◌+◌, ◌≤◌, length, map, IfSome};
ghost use Rattle.instruction_model.specs.InstructionWord.{IsRegister};
ghost use Rattle.asm_words.specs.Numbers.{decimal_value};
ghost use Rattle.asm_words.specs.Registers as model;

use crate::numeral::{behind, decimal_value};
use crate::words::byte_at;

/// The names of x0, x1 and so on.
const NAMES: [&str; 32] = [
    "zero", "ra", "sp", "gp", "tp", "t0", "t1", "t2", "s0", "s1", "a0", "a1", "a2", "a3", "a4",
    "a5", "a6", "a7", "s2", "s3", "s4", "s5", "s6", "s7", "s8", "s9", "s10", "s11", "t3", "t4",
    "t5", "t6",
];

/// How many registers there are.
const REGISTERS: u128 = 32;

/// The place of a word among names, where the first has a number, or none.
fn place_of(number: u8, names: &[&str], word: &[u8]) -> Option<u8>
    requires { number + length names.now ≤ 32 }
    ensures value { result ≡ model.place_of number (map (λ n. n.now) names.now) word.now }
    ensures range { IfSome result (λ r. IsRegister r) }
{
    match names {
        [] => None,
        [name, rest @ ..] => {
            if word == name.as_bytes() {
                Some(number)
            } else {
                place_of(number + 1, rest, word)
            }
        }
    }
}

/// The register that has a name, or none.
fn register_by_name(word: &[u8]) -> Option<u8>
    ensures value { result ≡ model.named_register word.now }
    ensures range { IfSome result (λ r. IsRegister r) }
{
    place_of(0, &NAMES, word)
}

/// The register that has a number in decimal, or none.
fn register_by_number(digits: &[u8]) -> Option<u8>
    ensures value { result ≡ model.register_number (decimal_value digits.now) }
    ensures range { IfSome result (λ r. IsRegister r) }
{
    let number = decimal_value(digits)?;
    if number < REGISTERS {
        Some(number as u8)
    } else {
        None
    }
}

/// The register that a word names, or none.
pub fn register_named(word: &[u8]) -> Option<u8>
    ensures value { result ≡ model.register word.now }
    ensures range { IfSome result (λ r. IsRegister r) }
{
    if byte_at(word, 0) == b'x' {
        register_by_number(behind(word, 1))
    } else {
        register_by_name(word)
    }
}
