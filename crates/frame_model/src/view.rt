//! What a holder knows. No value of these types is made: they are the plain data of proofs.

use crate::kind::Kind;
use std::collections::LinkedList;

/// What is known of one frame: its kind and its 512 words.
pub struct Known {
    pub frame: u32,
    pub kind: Kind,
    pub words: LinkedList<u64>,
}

/// What one holder has and knows of the frames.
pub struct View {
    /// The number of frames that there are.
    pub frames: u32,
    /// The frames that it owns.
    pub owned: LinkedList<u32>,
    /// The frames that it has references to, at most 16, each as often as it has references.
    pub references: LinkedList<u32>,
    /// What it knows of frames, the newest first. It counts for the frames of its reach alone.
    pub known: LinkedList<Known>,
    /// Its part of the whole stake, 2^40. A view without a stake has nothing.
    pub stake: u64,
}
