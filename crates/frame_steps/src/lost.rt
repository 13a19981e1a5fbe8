//! What became of a frame to which a reference went.

ghost use Rattle.std.specs.Prelude.{◌≡◌};
ghost use Rattle.frame_steps.specs.Counted.{lost_at};

/// What a holder has of a frame after it gave back a reference to it.
#[derive(Drop)]
pub enum Lost {
    /// It was the last name of the frame: its count was 1, and the holder owns it.
    Owned,
    /// The count was above 1. Other names of the frame are left.
    Shared,
}

/// What a meta word says, as it was when a reference went.
pub fn lost_of(meta: u64) -> Lost
    ensures { result ≡ lost_at meta }
{
    if meta / 256 == 1 {
        Lost::Owned
    } else {
        Lost::Shared
    }
}
