//! What `asm` and `dis` are refused for beside what all commands share.

ghost use Rattle.std.specs.Prelude.{◌≡◌};
ghost use Rattle.asm_commands.specs.Causes.{asm_line, asm_status, text_line};

use asm_lines::AsmKind;
use command_parts::{Cause, Line, Status};
use elf64::ImageFault;
use itoa::Buffer;

/// A cause that is the assembler's or the disassembler's own.
#[derive(Clone, Copy, Debug, PartialEq, Eq)]
pub enum AsmCause {
    /// The source is no image.
    Image(ImageFault),
    /// A line of the source is faulty: its number, from 1, and why.
    Line { number: u32, kind: AsmKind },
}

impl Cause for AsmCause {
    ghost own_status = { asm_status };

    ghost own_line = { asm_line };

    /// 2 of an image, and 3 of a line.
    fn status(&self) -> Status {
        match self {
            AsmCause::Image(fault) => fault.status(),
            AsmCause::Line { .. } => 3,
        }
    }

    /// It names the fault, and of a line its number too.
    fn line(&self) -> Line {
        match self {
            AsmCause::Image(fault) => fault.line(),
            AsmCause::Line { number, kind } => text_line(*number, *kind),
        }
    }
}

/// The line of a faulty line of text, by its number and what is wrong with it.
fn text_line(number: u32, kind: AsmKind) -> Line
    ensures { result.bytes ≡ text_line number kind }
{
    let mut digits = Buffer::new();
    let mut line = Line::new();
    line.push_str("seuss: line ");
    line.push_str(digits.format(number));
    line.push_str(" ");
    line.push_str(kind.name());
    line.push_str("\n");
    line
}
