//! Laws of ELF files: each image has sound segments and a sound entry, and want of
//! memory is no file's fault. A function here does nothing: its contract is the law.

ghost use Rattle.std.specs.Prelude.{◌≡◌, ◌≢◌, ℕ, ◌%◌, ◌≤◌, true, List, length, Err};
ghost use Rattle.std.specs.List.{AllByRecursion};
ghost use Rattle.elf64.specs.Elf.{elf, is_executable_at};
ghost use Rattle.elf64.specs.Laws.{HoldsOfImages, IsSoundSegment, AreApart};
ghost use Rattle.elf64.specs.declared.fault.ElfFault.TheVariants.{Memory};

/// The entry of an image is the address of an instruction, on a page that may be executed.
pub fn entry_is_sound()
    ensures aligned { HoldsOfImages (λ image. image.entry % 4 ≡ 0) }
    ensures executable { HoldsOfImages (λ image. is_executable_at image image.entry ≡ true) }
{}

/// An image has at most 16 segments, each with memory and in the addresses of programs, and no two
/// share an address.
pub fn segments_are_sound()
    ensures few { HoldsOfImages (λ image. length image.segments ≤ 16) }
    ensures each { HoldsOfImages (λ image. AllByRecursion IsSoundSegment image.segments) }
    ensures apart { HoldsOfImages (λ image. AreApart image.segments) }
{}

/// Want of memory is no file's fault.
pub fn memory_is_no_fault()
    ensures { (bytes : List ℕ) → elf bytes ≢ Err Memory }
{}
