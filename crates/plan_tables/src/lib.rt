//! The tables of a plan's text, a TOML document: what each says, or its first fault.
#![tactic(auto)]

mod document;
mod fault;
mod function_table;
mod key;
mod layer_table;
mod members;
mod packets;
mod rule;
mod shown;
mod tables;
mod top;

pub use fault::PlanFault;
pub use function_table::FunctionText;
pub use key::Key;
pub use layer_table::{Base, LayerText};
pub use tables::{Tables, read_tables};
