//! Each mnemonic's text and word, both ways.

use crate::line_tests::word_of;
use crate::mnemonic_rows::ROWS;
use rv_asm::{assemble, disassemble};
use std::alloc::{AllocError, Global};
use std::test::Fail;

#[test]
fn each_mnemonic_has_its_word(rt: HostRuntime) -> Result<(), Fail> {
    for row in ROWS.lines() {
        let (digits, text) = row.split_once(' ').ok_or("no word")?;
        let word = u32::from_str_radix(digits, 16)?;
        assert_eq!(rt; word_of(text), Some(word), "{row}");
        let shown = disassemble(rt.alloc(), word)?;
        assert_eq!(rt; shown.as_str(), text, "{row}");
    }
    Ok(())
}

/// A text of all rows, a line each.
fn text_of_all(alloc: Global) -> Result<String, AllocError> {
    let mut text = String::from_str(alloc, ".segment 0x10000 rx 260")?;
    for row in ROWS.lines() {
        let (_, line) = row.split_once(' ').unwrap_or((row, ""));
        text.push_str("\n")?;
        text.push_str(line)?;
    }
    Ok(text)
}

/// The words of all rows, each with its lowest byte first.
fn bytes_of_all(alloc: Global) -> Result<Vec<u8>, AllocError> {
    let mut bytes = Vec::new(alloc);
    for row in ROWS.lines() {
        let (digits, _) = row.split_once(' ').unwrap_or((row, ""));
        let word = u32::from_str_radix(digits, 16).unwrap_or(0);
        bytes.extend_from_slice(&word.to_le_bytes())?;
    }
    Ok(bytes)
}

/// The words stand behind the file header and one program header.
#[test]
fn a_text_of_each_mnemonic(rt: HostRuntime) -> Result<(), Fail> {
    let text = text_of_all(rt.alloc())?;
    let words = bytes_of_all(rt.alloc())?;
    assert_eq!(rt; words.len(), 260);
    if text.len() < 10_000 {
        let file = assemble(rt.alloc(), text.as_str())?;
        assert_eq!(rt; file.as_slice().get(120..), Some(words.as_slice()));
    }
    Ok(())
}
