//! Images that are refused.

ghost use Rattle.std.specs.Prelude.{◌≡◌, ◌%◌, ◌≤◌, length, Ok, IfOk, IfErr};
ghost use Rattle.elf64.specs.Elf.{elf};
ghost use Rattle.command_parts.specs.Ending.{RefusesBytes};
ghost use Rattle.command_parts.specs.ImageLine.{fault_status, fault_line, image_line};

use crate::cause::{Cause, Line, Status, whole_line};
use elf64::{ElfFault, Image, ImageFault, entry_is_sound, read_image};
use std::alloc::Global;

/// Why an image isn't had of bytes.
#[derive(Clone, Copy, Debug, PartialEq, Eq)]
pub enum NoImage {
    /// They are none, for this fault.
    Fault(ImageFault),
    /// Memory ran out.
    Memory,
}

/// The image of a file's bytes. Its entry is a multiple of 4, as each image's is.
///
/// The errors are Fault, with the first fault of the bytes, and Memory.
pub fn image_of(alloc: Global, bytes: &[u8]) -> Result<Image, NoImage>
    ensures image { IfOk result (λ image. elf bytes.now ≡ Ok image) }
    ensures aligned { IfOk result (λ image. image.entry % 4 ≡ 0) }
    ensures refused { IfErr result (RefusesBytes bytes.now) }
{
    entry_is_sound();
    match read_image(alloc, bytes) {
        Ok(image) => Ok(image),
        Err(fault) => match ImageFault::of(fault) {
            Some(fault) => Err(NoImage::Fault(fault)),
            None => Err(NoImage::Memory),
        },
    }
}

impl Cause for ImageFault {
    ghost own_status = { fault_status };

    ghost own_line = { fault_line };

    /// 2.
    fn status(&self) -> Status {
        2
    }

    /// It names the fault.
    fn line(&self) -> Line {
        whole_line(image_line(self.fault))
    }
}

/// The line of an image's fault, by its name.
fn image_line(fault: ElfFault) -> &'static str
    ensures line { result.now ≡ image_line fault }
    ensures short { length result.now ≤ 64 }
{
    match fault {
        ElfFault::Short => "seuss: image Short\n",
        ElfFault::TooBig => "seuss: image TooBig\n",
        ElfFault::Magic => "seuss: image Magic\n",
        ElfFault::Class => "seuss: image Class\n",
        ElfFault::Order => "seuss: image Order\n",
        ElfFault::FileKind => "seuss: image FileKind\n",
        ElfFault::Machine => "seuss: image Machine\n",
        ElfFault::HeaderSize => "seuss: image HeaderSize\n",
        ElfFault::ProgramHeader => "seuss: image ProgramHeader\n",
        ElfFault::SegmentRange => "seuss: image SegmentRange\n",
        ElfFault::Address => "seuss: image Address\n",
        ElfFault::Overlap => "seuss: image Overlap\n",
        ElfFault::Entry => "seuss: image Entry\n",
        ElfFault::Memory => "seuss: memory\n",
    }
}
