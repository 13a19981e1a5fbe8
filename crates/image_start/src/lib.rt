//! What a machine starts with, made from an image and the size of a stack.
#![tactic(auto)]

mod changes;
mod page_bytes;
mod page_span;
mod pages;
mod permission;
mod regions;
mod starting;

pub use starting::start_of;
