//! Lines of instruction words, worked out by hand from the RISC-V unprivileged manual ("RV32/64G
//! Instruction Set Listings"), and a text with its ELF file.

use rv_asm::*;
use std::test::Fail;

#[test]
fn words_as_text(rt: HostRuntime) -> Result<(), Fail> {
    let rows = [
        (0x0010_0413, "addi x8, x0, 1"),
        (0xfff0_0293, "addi x5, x0, -1"),
        (0x0104_1413, "slli x8, x8, 16"),
        (0x43f0_d093, "srai x1, x1, 63"),
        (0x01f0_d09b, "srliw x1, x1, 31"),
        (0x40f0_d09b, "sraiw x1, x1, 15"),
        (0x0062_82b3, "add x5, x5, x6"),
        (0x03f7_f3b3, "remu x7, x15, x31"),
        (0x02f7_f3bb, "remuw x7, x15, x15"),
        (0x0002_0437, "lui x8, 32"),
        (0x8000_02b7, "lui x5, 524288"),
        (0xffff_f097, "auipc x1, 1048575"),
        (0x0104_4303, "lbu x6, 16(x8)"),
        (0x0004_3023, "sd x0, 0(x8)"),
        (0x0002_80e7, "jalr x1, 0(x5)"),
        (0xfc9f_f06f, "jal x0, -56"),
        (0x8000_006f, "jal x0, -1048576"),
        (0x7fff_f06f, "jal x0, 1048574"),
        (0x8000_0063, "beq x0, x0, -4096"),
        (0x7e00_0fe3, "beq x0, x0, 4094"),
        (0x0ff0_000f, "fence x0, x0, 255"),
        (0x0000_0073, "ecall"),
        (0x0010_0073, "ebreak"),
        (0x0204_141b, ".word 0x0204141b"),
        (0x0000_0000, ".word 0x00000000"),
        (0xffff_ffff, ".word 0xffffffff"),
    ];
    for (word, text) in rows {
        let line = disassemble(rt.alloc(), word)?;
        assert_eq!(rt; line.as_str(), text);
    }
    Ok(())
}

/// The program that writes back the packet that it reads (`specs/Worked.antt`), as an ELF file:
/// the file header, one program header, twelve words.
const ECHO_FILE: &[u8; 168] = b"\
    \x7fELF\x02\x01\x01\0\0\0\0\0\0\0\0\0\
    \x02\0\xf3\0\x01\0\0\0\0\0\x01\0\0\0\0\0\
    \x40\0\0\0\0\0\0\0\0\0\0\0\0\0\0\0\
    \0\0\0\0\x40\0\x38\0\x01\0\0\0\0\0\0\0\
    \x01\0\0\0\x07\0\0\0\x78\0\0\0\0\0\0\0\
    \0\0\x01\0\0\0\0\0\0\0\x01\0\0\0\0\0\
    \x30\0\0\0\0\0\0\0\0\x10\0\0\0\0\0\0\
    \x01\0\0\0\0\0\0\0\
    \x13\x04\x10\0\x13\x14\x04\x01\x13\x05\x04\x10\x93\x05\0\x40\
    \x93\x08\x70\0\x73\0\0\0\x13\x05\x04\x10\x93\x08\x60\0\
    \x73\0\0\0\x13\x05\0\0\x93\x08\x80\0\x73\0\0\0";

#[test]
fn a_text_as_a_file(rt: HostRuntime) -> Result<(), Fail> {
    let text = ".segment 0x10000 rwx 4096\naddi s0, x0, 1\nslli s0, s0, 16\naddi a0, s0, 256\n\
        addi a1, x0, 1024\naddi a7, x0, 7\necall\naddi a0, s0, 256\naddi a7, x0, 6\necall\n\
        addi a0, x0, 0\naddi a7, x0, 8\necall\n";
    let file = assemble(rt.alloc(), text)?;
    assert_eq!(rt; file.as_slice(), ECHO_FILE.as_slice());
    Ok(())
}

#[test]
fn a_fault_as_text(rt: HostRuntime) -> Result<(), Fail> {
    let shown = match assemble(rt.alloc(), "\nfoo") {
        Ok(_) => String::new(rt.alloc()),
        Err(fault) => fault.to_string(rt.alloc())?,
    };
    assert_eq!(rt; shown.as_str(), "line 2 UnknownName");
    Ok(())
}

#[test]
fn each_fault_as_text(rt: HostRuntime) -> Result<(), Fail> {
    let rows = [
        (AsmKind::BadShape, "line 4294967295 BadShape"),
        (AsmKind::UnknownName, "line 4294967295 UnknownName"),
        (AsmKind::BadNumber, "line 4294967295 BadNumber"),
        (AsmKind::OutOfRange, "line 4294967295 OutOfRange"),
        (AsmKind::TwiceDefined, "line 4294967295 TwiceDefined"),
        (AsmKind::Undefined, "line 4294967295 Undefined"),
    ];
    for (kind, text) in rows {
        let line = u32::MAX;
        let shown = AsmFault::At { line, kind }.to_string(rt.alloc())?;
        assert_eq!(rt; shown.as_str(), text);
    }
    let shown = AsmFault::Memory.to_string(rt.alloc())?;
    assert_eq!(rt; shown.as_str(), "out of memory");
    Ok(())
}
