//! ELF files, read and written, tried on `elf64` and `elf64_write`.
#![tactic(auto)]

#[cfg(test)]
mod read_tests;
#[cfg(test)]
mod tests;
