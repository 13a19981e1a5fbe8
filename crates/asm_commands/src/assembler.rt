//! `asm`: assembler text becomes an ELF file.

ghost use Rattle.std.specs.Prelude.{◌≡◌, ◌+◌, ◌≤◌, length, take, Ok, IfOk, IfErr};
ghost use Rattle.asm_commands.specs.Asm.{Assembles, TextAssembles, line_feeds};
ghost use Rattle.asm_commands.specs.Conversion.{CouldNot, source_limit};

use crate::cause::AsmCause;
use crate::converting::{AsmRefusal, Conversion};
use asm_lines::AsmKind;
use command_parts::{Refusal, write_output};
use edge_streams::Sink;
use rv_asm::{AsmFault, assemble};
use std::alloc::Global;

/// Assembler text, as an ELF file.
pub struct Assembly;

impl Conversion for Assembly {
    ghost use Rattle.asm_commands.specs.Asm.{Assembles};

    ghost makes = { Assembles };

    fn write<K: Sink>(alloc: Global, input: Vec<u8>, sink: &mut K) -> Result<(), AsmRefusal> {
        let file = made(alloc, input)?;
        write_output(sink, &file)
    }
}

/// The ELF file of a source's bytes, or what they are refused for.
fn made(alloc: Global, input: Vec<u8>) -> Result<Vec<u8>, AsmRefusal>
    requires { length input.items ≤ source_limit }
    ensures made { IfOk result (λ file. Assembles input.items (Ok file.items)) }
    ensures refused { IfErr result (CouldNot Assembles input.items) }
{
    match str::from_utf8(&input) {
        Ok(text) => file_of(alloc, text),
        Err(error) => Err(Refusal::Own(AsmCause::Line {
            number: line_behind(&input, error.valid_up_to()),
            kind: AsmKind::BadShape,
        })),
    }
}

/// The ELF file of a text, or its first faulty line.
fn file_of(alloc: Global, text: &str) -> Result<Vec<u8>, AsmRefusal>
    requires { length text.now ≤ source_limit }
    ensures made { IfOk result (λ file. TextAssembles text.now (Ok file.items)) }
    ensures refused { IfErr result (CouldNot TextAssembles text.now) }
{
    match assemble(alloc, text) {
        Ok(file) => Ok(file),
        Err(AsmFault::At { line, kind }) => Err(Refusal::Own(AsmCause::Line {
            number: line,
            kind,
        })),
        Err(AsmFault::Memory) => Err(Refusal::Memory),
    }
}

/// The number of the line, from 1 on, that the byte at this place stands in.
fn line_behind(bytes: &[u8], place: usize) -> u32
    requires long { length bytes.now ≤ source_limit }
    requires within { place ≤ length bytes.now }
    ensures { result ≡ line_feeds (take place bytes.now) + 1 }
{
    let mut number = 1;
    'bytes: for at in 0..place {
        if bytes[at] == b'\n' {
            number += 1;
        }
    }
    number
}
