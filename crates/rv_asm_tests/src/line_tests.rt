//! Lines worked out by hand from the RISC-V unprivileged manual ("RV32/64G Instruction Set
//! Listings").

use asm_lines::{AsmKind, Data, Statement, read_statement};
use std::test::Fail;

/// The word that a line within a segment says, or none where it says something else.
pub fn word_of(line: &str) -> Option<u32> {
    match read_statement(true, line.as_bytes()) {
        Ok(Statement::Data(Data::Word(word))) => Some(word),
        Ok(_) | Err(_) => None,
    }
}

/// The fault of a line within a segment, or none.
fn fault_of(line: &str) -> Option<AsmKind> {
    read_statement(true, line.as_bytes()).err()
}

#[test]
fn words(rt: HostRuntime) -> Result<(), Fail> {
    let rows = [
        ("addi s0, zero, 1 # one", 0x0010_0413),
        ("srai ra, ra, 63", 0x43f0_d093),
        ("sraiw x1, x1, 15", 0x40f0_d09b),
        ("  remu t2 , a5 , t6  ", 0x03f7_f3b3),
        ("remuw x7, x15, x15", 0x02f7_f3bb),
        ("lui t0, 0x80000", 0x8000_02b7),
        ("auipc ra, 1048575", 0xffff_f097),
        ("lbu t1, 16(s0)", 0x0104_4303),
        ("sd zero, 0(s0)", 0x0004_3023),
        ("jalr ra, 0(t0)", 0x0002_80e7),
        ("jal zero, -56", 0xfc9f_f06f),
        ("beq zero, zero, 4094", 0x7e00_0fe3),
        ("fence x0, x0, 255", 0x0ff0_000f),
        ("ebreak", 0x0010_0073),
        (".word -1", 0xffff_ffff),
    ];
    for (line, word) in rows {
        assert_eq!(rt; word_of(line), Some(word));
    }
    Ok(())
}

#[test]
fn faults(rt: HostRuntime) -> Result<(), Fail> {
    let rows = [
        ("addi a0, a0", AsmKind::BadShape),
        ("add a0, a0, x32", AsmKind::UnknownName),
        ("addi a0, a0, 007", AsmKind::BadNumber),
        ("slli a0, a0, 64", AsmKind::OutOfRange),
        (".byte 256", AsmKind::OutOfRange),
    ];
    for (line, kind) in rows {
        assert_eq!(rt; fault_of(line), Some(kind));
    }
    Ok(())
}

#[test]
fn statements(rt: HostRuntime) {
    assert!(rt; matches!(read_statement(false, b"# none"), Ok(Statement::Nothing)));
    assert!(rt;
        matches!(
            read_statement(true, b"loop:"),
            Ok(Statement::Label(b"loop"))
        )
    );
    assert!(rt;
        matches!(
            read_statement(false, b".entry loop"),
            Ok(Statement::Entry(b"loop"))
        )
    );
    assert!(rt;
        matches!(
            read_statement(true, b".byte -1"),
            Ok(Statement::Data(Data::Byte(255)))
        )
    );
    assert!(rt;
        matches!(
            read_statement(true, b".zero 0x10"),
            Ok(Statement::Data(Data::Zeros(16)))
        )
    );
    assert!(rt;
        matches!(
            read_statement(false, b".segment 0xffffffffffffffff w 0xffffffffffffffff"),
            Ok(Statement::Segment {
                at: u64::MAX,
                flags: 2,
                size: u64::MAX
            })
        )
    );
}
