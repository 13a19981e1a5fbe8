//! A sink and a source that keep what goes through them first.

use arrayvec::ArrayVec;
use edge_streams::{Failed, Sink, Source};
use std::str;

/// The most bytes that are kept: no refusal's line has more.
const KEPT_BYTES: usize = 64;

/// A sink that hands on what it is given, and keeps the first bytes of it.
#[derive(Drop)]
pub struct KeptLine<K> {
    sink: K,
    kept: ArrayVec<u8, KEPT_BYTES>,
}

impl<K: Sink> KeptLine<K> {
    /// A sink over this one, which has kept nothing yet.
    pub fn new(sink: K) -> KeptLine<K> {
        KeptLine {
            sink,
            kept: ArrayVec::new(),
        }
    }

    /// What was kept, without the end of its line. It is empty where that isn't UTF-8.
    pub fn line(&self) -> &str {
        match str::from_utf8(self.kept.as_slice()) {
            Ok(line) => line.trim_ascii_end(),
            Err(_) => "",
        }
    }
}

impl<K: Sink> Sink for KeptLine<K> {
    ghost faults = { λ kept. K.faults kept.sink };

    ghost contents = { λ kept. K.contents kept.sink };

    /// Writes to the sink below, and keeps of what that took as much as there is room for.
    fn write(&mut self, bytes: &[u8]) -> Result<usize, Failed> {
        let taken = self.sink.write(bytes)?;
        keep(&mut self.kept, &bytes[..taken]);
        Ok(taken)
    }
}

/// How many bytes are kept: as many as tell an ELF file.
pub const HEAD_BYTES: usize = 4;

/// A source that hands out what the one below does, and keeps its first bytes.
#[derive(Drop)]
pub struct KeptHead<S> {
    source: S,
    head: ArrayVec<u8, HEAD_BYTES>,
}

impl<S: Source> KeptHead<S> {
    /// A source over this one, of which nothing was read yet.
    pub fn new(source: S) -> KeptHead<S> {
        KeptHead {
            source,
            head: ArrayVec::new(),
        }
    }

    /// The first bytes of what was read.
    pub fn head(&self) -> &[u8] {
        self.head.as_slice()
    }

    /// The source below.
    pub fn below(&self) -> &S {
        &self.source
    }
}

impl<S: Source> Source for KeptHead<S> {
    ghost faults = { λ kept. S.faults kept.source };

    ghost remaining = { λ kept. S.remaining kept.source };

    /// Reads from the source below, and keeps of what that gave as much as there is room for.
    fn read(&mut self, buf: &mut [u8]) -> Result<usize, Failed> {
        let taken = self.source.read(buf)?;
        keep(&mut self.head, &buf[..taken]);
        Ok(taken)
    }
}

/// Keeps as many of the bytes as there is room for. It is split off so that the proofs of `write`
/// and `read` see that what is below stays.
fn keep<const ROOM: usize>(kept: &mut ArrayVec<u8, ROOM>, bytes: &[u8]) {
    for byte in bytes {
        let _ = kept.try_push(*byte);
    }
}
