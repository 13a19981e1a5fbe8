//! Where requests and contexts stand in a journal, and what a journal comes to.

use crate::answer::How;

/// Whether a started request was answered.
#[derive(Clone, Copy, Debug, PartialEq, Eq)]
pub enum Standing {
    Open,
    Answered,
    /// It was refused for frames.
    Refused,
    /// It found no memory.
    Wanted,
}

/// Where a started request stands.
#[derive(Clone, Copy, Debug, PartialEq, Eq)]
pub struct RequestState {
    pub function: u16,
    /// What the clock showed at its start, in nanoseconds.
    pub clock: u64,
    pub standing: Standing,
    /// Where its context came from.
    pub how: How,
    /// The context that it was given, by its number.
    pub context: Option<u32>,
    /// How many requests that context had answered when it was given; 0 where it has none.
    pub used: u64,
    /// Where its context stood when the request was answered, refused or wanted: the layer, and
    /// none at the image. None as long as it is open, and where it has no context.
    pub place: Option<u16>,
}

/// What a context is there for.
#[derive(Clone, Copy, Debug, PartialEq, Eq)]
pub enum Duty {
    /// It waits for a request.
    Idle,
    /// It serves request `i`.
    Serves { i: u32 },
    /// It is over.
    Over,
}

/// Where a context that was drawn stands.
#[derive(Clone, Copy, Debug, PartialEq, Eq)]
pub struct ContextState {
    pub function: u16,
    /// The layer at which it stands, and none at the image.
    pub layer: Option<u16>,
    /// How many requests it answered.
    pub used: u64,
    pub duty: Duty,
}

/// What must stand directly after an event.
#[derive(Clone, Copy, Debug, PartialEq, Eq)]
pub enum Owed {
    Nothing,
    /// `dup k`.
    Dup { k: u16 },
    /// `keep k`.
    Keep { k: u16 },
    /// `drop` of the last kept layer, then `keep k`.
    DropThenKeep { k: u16 },
    /// `end c`.
    End { c: u32 },
    /// `end c`, or `park c`.
    EndOrPark { c: u32 },
    /// `end c`, or `evict` of the last idle context and then `park c`.
    EndOrEvict { c: u32 },
    /// `park c`.
    Park { c: u32 },
}

/// How many requests were started, how many of them each way, and how many frames are free.
#[derive(Clone, Copy, Debug, PartialEq, Eq)]
pub struct Totals {
    pub requests: u32,
    pub cold: u32,
    pub warm: u32,
    pub hot: u32,
    /// Those that had no context.
    pub none: u32,
    pub free: u32,
}

/// Whether a journal is legal.
#[derive(Clone, Copy, Debug, PartialEq, Eq)]
pub enum Judged {
    Legal(Totals),
    /// The first event that isn't legal, counted from 0; or the number of events, where one is
    /// still owed at the end.
    Broken { at: usize },
}
