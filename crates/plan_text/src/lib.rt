//! The text of a plan: read to a plan with its images, or refused for its first fault.
#![tactic(auto)]

mod images;
mod names;
mod placing;
mod read;
mod sketch;

pub use elf64::ElfFault;
pub use image_start::start_of;
pub use plan_model::{Names, Numbers, Packets, Plan, PlanFunction, PlanLayer, Start, Text};
pub use plan_tables::{Key, PlanFault};
pub use read::read_plan;
pub use space_api::first_hart;
