//! ELF files: a program's image from the bytes of its file, or why it has none.
#![tactic(auto)]

mod elf_laws;
mod fault;
mod field;
mod file_header;
mod loads;
mod program_header;
mod program_table;
mod read;
mod segments;

pub use elf_laws::{entry_is_sound, memory_is_no_fault, segments_are_sound};
pub use fault::{ElfFault, ImageFault};
pub use image_model::{Bytes, Image, Segment, Segments};
pub use loads::Loads;
pub use program_header::ProgramHeader;
pub use read::{check_image, read_image};
pub use segments::file_bytes;
