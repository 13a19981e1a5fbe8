//! Shelves, and frozen memory.

ghost use Rattle.std.specs.Prelude.{◌≡◌, ℕ, ◌≤◌, Bool, None};
ghost use Rattle.space_api.specs.Flat.{Flat};
ghost use Rattle.space_api.specs.Holding.{Stocked, free_limit};

use crate::held::Held;

/// The free frames, with what is known of all others.
pub trait Stock: Held {
    /// How many frames are free, its stake and the whole of all stakes, and what it notes of
    /// images and of pinned values.
    ghost stocked: { Self → Stocked };

    /// How many frames are free, at most 131,072.
    fn free(&self) -> u32
        ensures value { result ≡ (stocked self.now).free }
        ensures few { result ≤ free_limit };

    ghost stake_is: { (shelf : Self) → Self.stake shelf ≡ (stocked shelf).stake };

    ghost free_is_few: { (shelf : Self) → (stocked shelf).free ≤ free_limit };

    ghost shelf_is_free: { (shelf : Self) → Self.pin shelf ≡ None };
}

/// Memory that nothing changes any more: what spaces begin with.
pub trait FrozenMemory: Held {
    /// Its bytes, and what may be done with its pages; no page of it is written.
    ghost flat: { Self → Flat };

    /// Whether it is the frozen memory of an opened image.
    ghost image: { Self → Bool };
}
