//! From a text to an ELF file.

ghost use Rattle.std.specs.Prelude.{◌≡◌, ◌-◌, ◌<◌, ◌^◌, max, None, length};
ghost use Rattle.asm_image.specs.ImageOf.{image_of};
ghost use Rattle.asm_image.specs.Uses as uses;
ghost use Rattle.asm_program.specs.Held.{reading_of};
ghost use Rattle.rv_asm.specs.Answered.{Answers};
ghost use Rattle.rv_asm.specs.Assembly.{assembly, first_fault, file_unless};

use crate::fault::AsmFault;
use asm_image::{lines_fault, valid_image};
use asm_lines::AsmKind;
use asm_program::{Reading, read};
use elf64_write::write_image;
use std::alloc::Global;

/// The ELF file of a text, or its first fault: what is wrong with which line.
///
/// The other error is that memory ran out.
pub fn assemble(alloc: Global, text: &str) -> Result<Vec<u8>, AsmFault>
    requires { length text.now < 2 ^ 32 - 1 }
    ensures { Answers (assembly text.now) result }
{
    let reading = read(alloc, text.as_bytes())?;
    file_of(alloc, &reading)
}

/// The file of a text that was read, or its first fault.
fn file_of(alloc: Global, reading: &Reading) -> Result<Vec<u8>, AsmFault>
    ensures { Answers (file_unless (first_fault (reading_of reading.now) (max 1 reading.now.count))
        (image_of (reading_of reading.now))) result }
{
    match lines_fault(reading) {
        Some(fault) => Err(AsmFault::At {
            line: fault.line,
            kind: fault.kind,
        }),
        None => file_of_image(alloc, reading),
    }
}

/// The file of a text whose lines have no fault.
fn file_of_image(alloc: Global, reading: &Reading) -> Result<Vec<u8>, AsmFault>
    requires { uses.lines_fault (reading_of reading.now) ≡ None }
    ensures { Answers (file_unless (first_fault (reading_of reading.now) (max 1 reading.now.count))
        (image_of (reading_of reading.now))) result }
{
    match valid_image(alloc, reading)? {
        Some(image) => Ok(write_image(alloc, &image)?),
        None => Err(AsmFault::At {
            line: reading.count.max(1),
            kind: AsmKind::BadShape,
        }),
    }
}
