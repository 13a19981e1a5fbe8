//! Calls of a played book, and what they tell.

use std::alloc::Global;

/// A call of a played book.
#[derive(Clone, Copy, Debug)]
pub enum Step {
    /// The next request is started, for this function, where the clock shows this.
    Start {
        f: u16,
        t: u64,
    },
    /// A request is served; the context comes to hand.
    Serve {
        i: u32,
    },
    /// A context in hand is captured as this layer, with so many pages.
    Keep {
        c: u32,
        k: u16,
        d: u32,
    },
    /// A context in hand answered the request and is parked.
    Park {
        i: u32,
        c: u32,
    },
    /// A context in hand ends, after its answer where it gave one, and so many before.
    End {
        i: u32,
        c: u32,
        answered: Option<u32>,
    },
    /// A request finds no memory.
    Want {
        i: u32,
    },
    /// The book is stopped.
    Abandon,
}

/// What a call tells.
#[derive(Clone, Copy, Debug, PartialEq, Eq)]
pub enum Told {
    /// The request of that number was started.
    Started(u32),
    /// That context was idle and serves.
    Hot(u32),
    /// That context was deployed from the image with that mark.
    FromImage { c: u32, mark: u64 },
    /// That context was deployed from that layer, with that mark.
    FromLayer { c: u32, k: u16, mark: u64 },
    /// No frame is free.
    Frames,
    /// The layer is kept.
    Kept,
    /// The layer is kept, and that one went for it.
    Dropped(u16),
    /// The layer was kept already.
    Twice,
    /// A spare is wanted.
    NeedFrames,
    /// The context is idle.
    Parked,
    /// The context is idle, and that one went for it.
    Evicted(u32),
    /// The context is over, and so many frames came back.
    Ended(u32),
    /// The request found no memory.
    Wanted,
    /// The book is stopped.
    Stopped,
    /// It may not be.
    Not,
    /// Memory is wanted.
    Memory,
    /// That context isn't in hand.
    Missing,
}

impl Told {
    /// Whether a call that tells this appends no event.
    pub fn is_silent(self) -> bool {
        match self {
            Told::Started(_)
            | Told::Hot(_)
            | Told::FromImage { .. }
            | Told::FromLayer { .. }
            | Told::Kept
            | Told::Dropped(_)
            | Told::Twice
            | Told::Parked
            | Told::Evicted(_)
            | Told::Ended(_)
            | Told::Wanted => false,
            Told::Frames
            | Told::NeedFrames
            | Told::Stopped
            | Told::Not
            | Told::Memory
            | Told::Missing => true,
        }
    }
}

/// The numbers of a text with a blank between; none where there is something else.
fn numbers_of(alloc: Global, text: &str) -> Option<Vec<u32>> {
    let mut numbers = Vec::new(alloc);
    if text.is_empty() {
        return Some(numbers);
    }
    for word in text.split(' ') {
        numbers.push(word.parse::<u32>().ok()?).ok()?;
    }
    Some(numbers)
}

/// A number of a function or a layer.
fn short(number: u32) -> Option<u16> {
    u16::try_from(number).ok()
}

/// The start of a request.
fn start_of(numbers: &[u32]) -> Option<Step> {
    match numbers {
        [f, t] => Some(Step::Start {
            f: short(*f)?,
            t: u64::from(*t),
        }),
        _ => None,
    }
}

/// The keeping of a layer.
fn keep_of(numbers: &[u32]) -> Option<Step> {
    match numbers {
        [c, k, d] => Some(Step::Keep {
            c: *c,
            k: short(*k)?,
            d: *d,
        }),
        _ => None,
    }
}

/// The end of a context.
fn end_of(numbers: &[u32]) -> Option<Step> {
    match numbers {
        [i, c] => Some(Step::End {
            i: *i,
            c: *c,
            answered: None,
        }),
        [i, c, u] => Some(Step::End {
            i: *i,
            c: *c,
            answered: Some(*u),
        }),
        _ => None,
    }
}

/// A call of one number.
fn single_of(word: &str, i: u32) -> Option<Step> {
    match word {
        "serve" => Some(Step::Serve { i }),
        "want" => Some(Step::Want { i }),
        _ => None,
    }
}

/// The call of a word and numbers.
fn step_of(word: &str, numbers: &[u32]) -> Option<Step> {
    match word {
        "start" => start_of(numbers),
        "keep" => keep_of(numbers),
        "end" => end_of(numbers),
        "abandon" => Some(Step::Abandon),
        _ => match numbers {
            [i] => single_of(word, *i),
            [i, c] if word == "park" => Some(Step::Park { i: *i, c: *c }),
            _ => None,
        },
    }
}

/// The call of a text: `start F T`, `serve I`, `keep C K D`, `park I C`, `end I C` of a context
/// that gave no answer, `end I C U`, `want I`, `abandon`. None where it is something else.
pub fn read_step(alloc: Global, text: &str) -> Option<Step> {
    let (word, rest) = text.split_once(' ').unwrap_or((text, ""));
    let numbers = numbers_of(alloc, rest)?;
    step_of(word, &numbers)
}
