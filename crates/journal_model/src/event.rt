//! What happens to requests, contexts, layers and frames.

/// One entry of the journal. Requests `i` and contexts `c` are numbered from 1, functions `f` and
/// layers `k` from 0.
#[derive(Clone, Copy, Debug, PartialEq, Eq)]
pub enum Event {
    /// Request `i` for function `f` was started when the clock showed `t`, in nanoseconds.
    Start {
        i: u32,
        f: u16,
        t: u64,
    },
    /// The idle context `c` serves request `i`.
    Take {
        c: u32,
        i: u32,
    },
    /// Context `c` was made of layer `k`, or of the image, for request `i`, with `n` frames.
    Deploy {
        c: u32,
        k: Option<u16>,
        i: u32,
        n: u32,
    },
    /// Context `c` held `h` spare frames and took `n` more.
    Refill {
        c: u32,
        h: u32,
        n: u32,
    },
    /// Context `c` was captured as layer `k`, with `d` written pages.
    Built {
        c: u32,
        k: u16,
        d: u32,
    },
    /// Layer `k` was kept.
    Keep {
        k: u16,
    },
    /// Layer `k` was kept already.
    Dup {
        k: u16,
    },
    /// Layer `k` is kept no more.
    Drop {
        k: u16,
    },
    /// The idle context `c` is over.
    Evict {
        c: u32,
    },
    /// Context `c` became idle.
    Park {
        c: u32,
    },
    /// Context `c` is over.
    End {
        c: u32,
    },
    /// `n` frames came back.
    Back {
        n: u32,
    },
    /// Request `i` was refused: no frame was free, and nothing could be given up for it.
    Refuse {
        i: u32,
    },
    /// Request `i` found no memory.
    Want {
        i: u32,
    },
    /// Context `c` answered request `i`, after `u` earlier ones.
    Answer {
        i: u32,
        c: u32,
        u: u32,
    },
}
