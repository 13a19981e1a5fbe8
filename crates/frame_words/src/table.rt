//! The table of all frames.

ghost use Rattle.std.specs.Prelude.{◌≡◌, ◌*◌, ◌<◌};

use crate::law::FrameLaw;
use atomic_table::Table;
use frame_model::Holding;
use std::alloc::Global;

/// All frames, each a meta word and 512 words that change in single atomic steps. Threads share
/// it by reference, and step on it with a holder each.
#[derive(Drop)]
pub struct FrameTable {
    pub table: Table<(), Holding, u32, FrameLaw, Global>,
    pub frames: u32,
    pub ghost some: { 0 < frames },
    pub ghost keyed: { table.shared.key ≡ frames },
    pub ghost sized: { table.shared.table_id.words ≡ frames * 513 },
}
