//! What a holder gives away.

use frame_model::Frame;

/// A part of what a holder has, with the stake that goes along.
#[derive(Drop)]
pub enum Part {
    /// So many frames of a pile, from this one on, each of which names the next in its word 0.
    Pile {
        first: Frame,
        count: u32,
        stake: u64,
    },
    /// A root: where the holder owns it, with all owned frames below it and with each reference
    /// to it, and else one reference to it.
    Root {
        root: Frame,
        stake: u64,
    },
}
