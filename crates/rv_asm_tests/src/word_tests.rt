//! Registers of the RISC-V ELF psABI ("Integer Register Convention"), and numbers.

use asm_words::{number, register_named};
use std::test::Fail;

#[test]
fn registers(rt: HostRuntime) -> Result<(), Fail> {
    let rows = [
        ("zero", 0),
        ("ra", 1),
        ("sp", 2),
        ("gp", 3),
        ("tp", 4),
        ("t0", 5),
        ("t1", 6),
        ("t2", 7),
        ("s0", 8),
        ("s1", 9),
        ("a0", 10),
        ("a1", 11),
        ("a2", 12),
        ("a3", 13),
        ("a4", 14),
        ("a5", 15),
        ("a6", 16),
        ("a7", 17),
        ("s2", 18),
        ("s3", 19),
        ("s4", 20),
        ("s5", 21),
        ("s6", 22),
        ("s7", 23),
        ("s8", 24),
        ("s9", 25),
        ("s10", 26),
        ("s11", 27),
        ("t3", 28),
        ("t4", 29),
        ("t5", 30),
        ("t6", 31),
        ("x0", 0),
        ("x9", 9),
        ("x31", 31),
    ];
    for (word, number) in rows {
        assert_eq!(rt; register_named(word.as_bytes()), Some(number));
    }
    Ok(())
}

#[test]
fn numbers(rt: HostRuntime) -> Result<(), Fail> {
    let rows = [
        ("0", 0),
        ("-2048", -2048),
        ("0x80000", 524_288),
        ("-0xfF", -255),
        ("18446744073709551615", 18_446_744_073_709_551_615),
        (
            "340282366920938463463374607431768211456",
            18_446_744_073_709_551_616,
        ),
    ];
    for (word, value) in rows {
        assert_eq!(rt; number(word.as_bytes()), Some(value));
    }
    Ok(())
}
