//! What the seat of a holder stands for. No value of these types is made: they are the plain data
//! of proofs.

use crate::view::View;

/// What is counted of a holder beside its frames. Nothing yet.
pub struct Tally;

/// What the seat of one holder stands for.
pub struct Holding {
    /// What it has and knows of the frames.
    pub view: View,
    /// What is counted of it beside them.
    pub tally: Tally,
}
