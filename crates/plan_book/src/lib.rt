//! The book of a plan: its sizes, its opening over copied pages with the plan's images, and how it
//! is taken apart.
#![tactic(auto)]

mod adding;
mod closing;
mod opening;
mod picking;
mod sizing;
mod taking;

pub use book_core::{Book, Closed, Grounds, Started};
pub use closing::close_book;
pub use context_uc::{Context, Layer};
pub use journal_model::{Event, Sizes};
pub use layer_model::Plan;
pub use machine_model::Memory;
pub use opening::open_book;
pub use picking::{PlanGrounds, Planned};
pub use sizing::{sizes_are_of_batches, sizes_of_plan};
pub use taking::{Remains, take_apart};
