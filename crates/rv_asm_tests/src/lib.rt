//! Tests of the assembler: on words, on lines, on texts. There is no code here.
#![tactic(auto)]

#[cfg(test)]
mod image_tests;
#[cfg(test)]
mod limit_tests;
#[cfg(test)]
mod line_tests;
#[cfg(test)]
mod mnemonic_rows;
#[cfg(test)]
mod mnemonic_tests;
#[cfg(test)]
mod rows;
#[cfg(test)]
mod tests;
#[cfg(test)]
mod text_tests;
#[cfg(test)]
mod word_tests;
