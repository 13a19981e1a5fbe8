//! Texts and their images: where the program begins, the flags of segments, and their bytes. Words
//! of branches and jumps to labels are as GNU as makes them.

use crate::tests::LONGEST;
use rv_asm::assemble;
use std::alloc::Global;
use std::test::Fail;

/// A text with bars for its line feeds, the address at which the program begins, the flags of each
/// segment, and their bytes.
type Row = (&'static str, u64, &'static [u32], &'static [u8]);

/// The text of branches and jumps, ahead and back, to labels of one segment.
const NEAR: &str = ".segment 0x10000 rx 64|start:|beq x1, x2, ahead|jal x5, far|back:|\
                    bne x3, x4, back|jal x0, start|.zero 8|ahead:|bgeu x31, x30, start|\
                    .byte 0x80|.byte 0xff|.zero 2|far:|blt x6, x7, far|.word 0x80000000";

const ROWS: [Row; 7] = [
    // It begins at the first segment of the text, wherever that lies, or at the entry.
    (
        ".segment 0x20000 rx 64|ecall|.segment 0x10000 x 64|ebreak",
        0x2_0000,
        &[5, 1],
        b"\x73\0\0\0\x73\0\x10\0",
    ),
    (
        ".segment 0x20000 rx 64|ecall|.entry b|.segment 0x10000 rwx 64|ebreak|b:|ecall",
        0x1_0004,
        &[5, 7],
        b"\x73\0\0\0\x73\0\x10\0\x73\0\0\0",
    ),
    (
        ".entry a|.segment 0x10000 rx 64|.zero 4|a:|b:|.segment 0x20000 rx 64|ecall",
        0x1_0004,
        &[5, 5],
        b"\0\0\0\0\x73\0\0\0",
    ),
    (
        ".segment 0x10000 x 4|.segment 0x20000 w 4|.segment 0x30000 wx 4|.segment 0x40000 r 4|\
         .segment 0x50000 rx 4|.segment 0x60000 rw 4|.segment 0x70000 rwx 4",
        0x1_0000,
        &[1, 2, 3, 4, 5, 6, 7],
        b"",
    ),
    (
        ".segment 0x10000 x 64|.word 0x04030201|.byte 5|.zero 2|.byte -128|.word -2147483648|\
         .byte 255|.byte -1|.word 4294967295",
        0x1_0000,
        &[1],
        b"\x01\x02\x03\x04\x05\0\0\x80\0\0\0\x80\xff\xff\xff\xff\xff\xff",
    ),
    (
        NEAR,
        0x1_0000,
        &[5],
        b"\x63\x8c\x20\0\xef\x02\xc0\x01\x63\x90\x41\0\x6f\xf0\x5f\xff\0\0\0\0\0\0\0\0\
          \xe3\xf4\xef\xff\x80\xff\0\0\x63\x40\x73\0\0\0\0\x80",
    ),
    // A label of another segment.
    (
        ".segment 0x10000 rx 64|jal x0, b|.segment 0x11000 rx 64|b:|ecall",
        0x1_0000,
        &[5, 5],
        b"\x6f\x10\0\0\x73\0\0\0",
    ),
];

/// The file of a text with bars for its line feeds.
fn file_of(alloc: Global, text: &str) -> Result<Vec<u8>, Fail> {
    let text = text.replace(alloc, "|", "\n")?;
    if text.len() > LONGEST {
        return Err(Fail::from("too long"));
    }
    Ok(assemble(alloc, text.as_str())?)
}

/// Whether the segments of a file have these flags. The first one's stand at 68.
fn has_flags(file: &[u8], flags: &[u32]) -> bool {
    let mut at = 68_usize;
    for flag in flags {
        let found = file.get(at..at.saturating_add(4));
        if found != Some(flag.to_le_bytes().as_slice()) {
            return false;
        }
        at = at.saturating_add(56);
    }
    true
}

/// What stands behind the headers of so many segments.
fn behind_headers(file: &[u8], segments: usize) -> Option<&[u8]> {
    file.get(segments.saturating_mul(56).saturating_add(64)..)
}

#[test]
fn each_text_has_its_image(rt: HostRuntime) -> Result<(), Fail> {
    for (text, entry, flags, bytes) in ROWS {
        let file = file_of(rt.alloc(), text)?;
        let file = file.as_slice();
        assert_eq!(rt;
            file.get(24..32),
            Some(entry.to_le_bytes().as_slice()),
            "{text}"
        );
        assert!(rt; has_flags(file, flags), "{text}");
        assert_eq!(rt; behind_headers(file, flags.len()), Some(bytes), "{text}");
    }
    Ok(())
}

/// A text with a label as far ahead as may be, and the word at its begin.
const AHEAD: [(&str, u32); 2] = [
    (
        ".segment 0x10000 rx 2000000|jal x2, e|.zero 1048570|e:|ecall",
        0x7fff_f16f,
    ),
    (
        ".segment 0x10000 rx 2000000|beq x1, x2, c|.zero 4090|c:|ecall",
        0x7e20_8fe3,
    ),
];

/// A text with a label as far back as may be, and the word at its end.
const BACK: [(&str, u32); 2] = [
    (
        ".segment 0x10000 rx 2000000|a:|.zero 1048576|jal x1, a",
        0x8000_00ef,
    ),
    (
        ".segment 0x10000 rx 2000000|d:|.zero 4096|bne x2, x1, d",
        0x8011_1063,
    ),
];

#[test]
fn labels_as_far_as_may_be(rt: HostRuntime) -> Result<(), Fail> {
    for (text, word) in AHEAD {
        let file = file_of(rt.alloc(), text)?;
        let found = file.as_slice().get(120..124);
        assert_eq!(rt; found, Some(word.to_le_bytes().as_slice()), "{text}");
    }
    for (text, word) in BACK {
        let file = file_of(rt.alloc(), text)?;
        assert!(rt; file.as_slice().ends_with(&word.to_le_bytes()), "{text}");
    }
    Ok(())
}
