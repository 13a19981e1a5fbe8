//! What is held of all frames.

ghost use Rattle.std.specs.Prelude.{ℕ, Option};
ghost use Rattle.space_api.specs.Holding.{Pin};

/// What holds frames, or may hold some. It has no call.
pub trait Held {
    /// Its stake: its part of a whole that all who hold frames share.
    ghost stake: { Self → ℕ };

    /// Its span: how many frames beside the images' it reaches at most, its spares counted.
    ghost span: { Self → ℕ };

    /// What a pin keeps of it, where it is pinned: then it takes part in nothing until it is
    /// unpinned.
    ghost pin: { Self → Option Pin };
}
