//! Opens a table of frames, and closes it.

ghost use Rattle.std.specs.Prelude.{◌≡◌, ℕ, ◌*◌, ◌<◌, ◌≤◌, IfOk, replicate};
ghost use Rattle.frame_model.specs.Views.{OwnsAll, first_view};
ghost use Rattle.frame_model.specs.Rule.{most_frames};
ghost use Rattle.frame_words.specs.Holders.{view, IsOf};

use crate::holder::Holder;
use crate::table::FrameTable;
use atomic_table::Table;
use machine_model::Memory;
use std::alloc::{AllocError, Global};

/// The most frames of a table.
pub const MOST_FRAMES: u32 = 131_072;

/// So many words of 0.
fn zero_words(alloc: Global, n: usize) -> Result<Vec<u64>, AllocError>
    ensures { IfOk result (λ words. words.items ≡ replicate n 0) }
{
    vec![in alloc; 0; n]
}

impl FrameTable {
    /// A table of so many frames, all of whose words are 0, with a holder that owns every frame.
    /// Memory is want of memory.
    pub fn open(alloc: Global, frames: u32) -> Result<(FrameTable, Holder), Memory>
        requires some { 0 < frames }
        requires most { frames ≤ most_frames }
        ensures holder { IfOk result (λ r. IsOf r.1 r.0) }
        ensures view { IfOk result (λ r. view r.1 ≡ first_view frames) }
    {
        let zeros = zero_words(alloc, frames as usize * 513)?;
        let (table, seat) = Table::of_words(alloc, &zeros, &frames)?;
        Ok((FrameTable { table, frames }, Holder { seat }))
    }

    /// Ends the table and the holder that has all of it, and answers the number of frames.
    pub fn close(self, holder: Holder) -> u32
        requires holder { IsOf holder self }
        requires all { OwnsAll (view holder) }
        ensures { result ≡ (view holder).frames }
    {
        drop(holder);
        self.frames
    }
}
