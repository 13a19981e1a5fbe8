//! What the contexts and layers of a book belong to.

use space_api::{Kept, Parked};
use std::marker::Brand;

/// What the contexts, layers and images of a book belong to, as the plan that all borrow. Contracts
/// alone see it: whoever opens a book picks it.
pub trait Grounds<C: Parked, L: Kept> {
    /// The context belongs to it.
    ghost is_context: { C → Type 0 };

    /// The layer, or the image, belongs to it.
    ghost is_layer: { L → Type 0 };

    /// A layer that tells the same belongs to it too.
    ghost layer_stays: { (a b : L) → L.tells_same a b → is_layer a → is_layer b };
}

impl<C: Parked, L: Kept> Grounds<C, L> for Brand {
    ghost is_context = { λ _. Unit {0} };

    ghost is_layer = { λ _. Unit {0} };

    ghost layer_stays = { λ _ _ _ is. is };
}
