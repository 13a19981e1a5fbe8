//! Spaces: the memory of a context as a trait with a written meaning, and the store that makes
//! spaces of frozen memory and freezes theirs. Whatever runs programs names nothing of them but
//! these traits.
#![tactic(auto)]

mod access;
mod first;
mod frame_laws;
mod given;
mod held;
mod kept;
mod names;
mod refused;
mod space;
mod stock;
mod store;
mod text;

pub use access::Access;
pub use first::first_hart;
pub use frame_laws::{frames_rise, need_is_of_frames, parts_spend_together};
pub use given::{Captured, Given};
pub use held::Held;
pub use image_model::{PAGE_SIZE, PageBytes, Region, Start};
pub use kept::{Kept, KeptIn, Parked, PinIn, Tells};
pub use machine_model::{Hart, Memory, Packet};
pub use names::Names;
pub use refused::Refused;
pub use space::Space;
pub use stock::{FrozenMemory, Stock};
pub use store::Store;
pub use text::Text;
