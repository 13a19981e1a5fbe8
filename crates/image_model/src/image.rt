//! An image: a program as it lies in memory before its first instruction.

ghost use Rattle.std.specs.Prelude.{◌≡◌};

use crate::bytes::Bytes;
use std::marker::Model;

/// A part of an image that lies in memory in one piece.
#[derive(Debug, Drop)]
pub struct Segment {
    /// The address of its first byte.
    pub at: u64,
    /// Its permissions: 1 execute, 2 write, 4 read, added.
    pub flags: u32,
    /// How many bytes of memory it takes.
    pub size: u64,
    /// Its first bytes, at most `size`. The others are 0.
    pub bytes: Bytes,
}

/// Segments that contracts see as a list.
#[derive(Debug, Drop)]
pub struct Segments {
    list: Vec<Segment>,
}

impl Model for Segments {
    ghost use Rattle.std.specs.Prelude.{List};
    ghost use Rattle.image_model.specs.declared.image.Segment.{Segment};

    ghost Value = { List Segment };

    ghost view = { λ s. s.list.items };
}

impl Segments {
    /// These segments.
    pub fn from_vec(list: Vec<Segment>) -> Segments
        ensures { result ≡ list.items }
    {
        Segments { list }
    }

    /// All of the segments.
    pub fn as_slice(&self) -> &[Segment]
        ensures { result.now ≡ self.now }
    {
        &self.list
    }

    /// The segments as the vector that they came in.
    pub fn into_vec(self) -> Vec<Segment>
        ensures { result.items ≡ self }
    {
        self.list
    }
}

/// A program: its segments, and the address of its first instruction.
#[derive(Debug, Drop)]
pub struct Image {
    pub entry: u64,
    pub segments: Segments,
}
