//! Texts at the edges of what assembler text may be, with what becomes of each.

use crate::rows::ROWS;
use rv_asm::{AsmFault, assemble};
use std::alloc::{AllocError, Global};
use std::test::Fail;

/// The most bytes of a text here.
pub const LONGEST: usize = 16_777_216;

/// What becomes of a text: `ok`, or the line and the kind of its fault.
pub fn answer(alloc: Global, text: &str) -> Result<String, AllocError> {
    if text.len() > LONGEST {
        return String::from_str(alloc, "too long");
    }
    match assemble(alloc, text) {
        Ok(_) => String::from_str(alloc, "ok"),
        Err(AsmFault::At { line, kind }) => format!(in alloc; "{line} {}", kind.name()),
        Err(AsmFault::Memory) => Err(AllocError),
    }
}

#[test]
fn there_are_as_many_rows(rt: HostRuntime) {
    assert!(rt; ROWS.split_terminator('\n').count() == 206);
}

#[test]
fn each_text_has_its_answer(rt: HostRuntime) -> Result<(), Fail> {
    for row in ROWS.split_terminator('\n') {
        let (wanted, text) = row.split_once('|').unwrap_or((row, ""));
        let text = text.replace(rt.alloc(), "|", "\n")?;
        let got = answer(rt.alloc(), text.as_str())?;
        assert_eq!(rt; got.as_str(), wanted, "{row}");
    }
    Ok(())
}
