//! Values from outside: worked cases of the manual, and those of a C compiler.
use super::*;
use std::process::Abort;

mod vectors;

use vectors::{Values, WORDS};

// The operation gives these values at all pairs of the words.
fn check<F: Fn(u64, u64) -> u64>(rt: &impl Abort, values: &Values, operation: &F)
    requires { F.IsAlwaysCallable operation.now }
{
    for (a, line) in WORDS.iter().zip(values.iter()) {
        assert_eq!(rt; line.split(' ').count(), WORDS.len());
        for (b, text) in WORDS.iter().zip(line.split(' ')) {
            assert_eq!(rt;
                Ok(operation(*a, *b)),
                u64::from_str_radix(text, 16),
                "{a:x} {b:x}"
            );
        }
    }
}

#[test]
fn whole_words_as_in_c(rt: HostRuntime) {
    check(&rt, &vectors::ADD, &add);
    check(&rt, &vectors::SUB, &sub);
    check(&rt, &vectors::SLL, &sll);
    check(&rt, &vectors::SRL, &srl);
    check(&rt, &vectors::SRA, &sra);
    check(&rt, &vectors::SLT, &slt);
    check(&rt, &vectors::SLTU, &sltu);
    check(&rt, &vectors::AND, &and);
    check(&rt, &vectors::OR, &or);
    check(&rt, &vectors::XOR, &xor);
}

#[test]
fn products_and_quotients_as_in_c(rt: HostRuntime) {
    check(&rt, &vectors::MUL, &mul);
    check(&rt, &vectors::MULH, &mulh);
    check(&rt, &vectors::MULHSU, &mulhsu);
    check(&rt, &vectors::MULHU, &mulhu);
    check(&rt, &vectors::DIV, &div);
    check(&rt, &vectors::DIVU, &divu);
    check(&rt, &vectors::REM, &rem);
    check(&rt, &vectors::REMU, &remu);
}

#[test]
fn low_words_as_in_c(rt: HostRuntime) {
    check(&rt, &vectors::ADDW, &addw);
    check(&rt, &vectors::SUBW, &subw);
    check(&rt, &vectors::SLLW, &sllw);
    check(&rt, &vectors::SRLW, &srlw);
    check(&rt, &vectors::SRAW, &sraw);
    check(&rt, &vectors::MULW, &mulw);
    check(&rt, &vectors::DIVW, &divw);
    check(&rt, &vectors::DIVUW, &divuw);
    check(&rt, &vectors::REMW, &remw);
    check(&rt, &vectors::REMUW, &remuw);
}

// The cases that a division or a product is often got wrong at.
#[test]
fn worked_values(rt: HostRuntime) {
    const LEAST: u64 = 0x8000_0000_0000_0000;
    const LEAST_LOW: u64 = 0xffff_ffff_8000_0000;
    const ONES: u64 = 0xffff_ffff_ffff_ffff;
    for (got, want) in [
        (div(LEAST, ONES), LEAST),
        (rem(LEAST, ONES), 0),
        (div(7, 0), ONES),
        (rem(7, 0), 7),
        (divw(0x1234_5678_8000_0000, 0xffff_ffff), LEAST_LOW),
        (remw(0x1234_5678_8000_0000, 0xffff_ffff), 0),
        (divw(0xffff_ffff_0000_0007, 0xabcd_ef00_0000_0000), ONES),
        (remw(0xffff_ffff_0000_0007, 0xabcd_ef00_0000_0000), 7),
        (remuw(0x1_8000_0000, 0), LEAST_LOW),
        (mulh(ONES, ONES), 0),
        (mulhu(ONES, ONES), 0xffff_ffff_ffff_fffe),
        (mulhsu(ONES, ONES), ONES),
    ] {
        assert_eq!(rt; got, want);
    }
}
