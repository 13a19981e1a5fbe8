//! What is read of a text.

ghost use Rattle.std.specs.Prelude.{◌≡◌, ◌<◌, ◌^◌, ◌-◌, IfOk, None, length, option_map};
ghost use Rattle.asm_words.specs.Text.{lines};
ghost use Rattle.asm_program.specs.Held.{program_of, fault_of, reading_of};
ghost use Rattle.asm_program.specs.Reading.{reading, read_up_to};

use crate::labels::Labels;
use crate::line::split_line;
use crate::part::Part;
use crate::program::{Entry, Program};
use asm_lines::AsmKind;
use std::alloc::{AllocError, Global};

/// What is wrong with which line.
#[derive(Clone, Copy)]
pub struct LineFault {
    /// The line, from 1 on.
    pub line: u32,
    pub kind: AsmKind,
}

/// What was read of a text: of all its lines, or of those before the first that is faulty
/// whatever the addresses of labels are.
#[derive(Drop)]
pub struct Reading<'a> {
    /// The segments, in the order of the text.
    pub parts: Vec<Part<'a>>,
    pub labels: Labels<'a>,
    /// The label at which the program begins, if a line says it.
    pub entry: Option<Entry<'a>>,
    /// The faulty line.
    pub fault: Option<LineFault>,
    /// How many lines were read without a fault.
    pub count: u32,
}

/// Reads a text.
///
/// The only error is that memory ran out.
pub fn read(alloc: Global, text: &[u8]) -> Result<Reading<'_>, AllocError>
    requires { length text.now < 2 ^ 32 - 1 }
    ensures value { IfOk result (λ r. reading_of r ≡ reading text.now) }
    ensures count { IfOk result (λ r. r.fault ≡ None → r.count ≡ length (lines text.now)) }
{
    let mut program = Program::new(alloc);
    let mut rest = text;
    let mut count = 0;
    'lines: while !rest.is_empty() {
        let (line, behind) = split_line(rest);
        match program.add_line(count + 1, line)? {
            Some(kind) => {
                let line = count + 1;
                return finish(program, Some(LineFault { line, kind }), count);
            }
            None => {
                count += 1;
                rest = behind;
            }
        }
    }
    finish(program, None, count)
}

/// What was read, once no line adds to it any more.
fn finish(
    mut program: Program<'_>,
    fault: Option<LineFault>,
    count: u32,
) -> Result<Reading<'_>, AllocError>
    ensures value { IfOk result (λ r. reading_of r
        ≡ read_up_to (program_of program.entry) (option_map fault_of fault)) }
    ensures rest { IfOk result (λ r. (r.fault ≡ fault) × (r.count ≡ count)) }
{
    program.complete()?;
    let Program {
        done,
        labels,
        entry,
        ..
    } = program;
    Ok(Reading {
        parts: done,
        labels,
        entry,
        fault,
        count,
    })
}
