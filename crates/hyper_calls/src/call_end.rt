//! How a hypercall ends.

/// How a hypercall ends.
#[derive(Clone, Copy, Debug, PartialEq, Eq)]
pub enum CallEnd {
    /// It is done, and the run goes on.
    Done,
    /// It is done: the program waits for a packet, and none is queued.
    Rest,
    /// It is done: the program ended itself with this code.
    Halt(u64),
    /// There is no hypercall of this number. All is as it was.
    BadCall(u64),
    /// More frames are needed than the space has spares. All is as it was.
    NeedFrames,
    /// Memory ran out. All is as it was.
    Memory,
}
