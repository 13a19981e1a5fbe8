//! What a frame is used for.

/// The kind of a frame: a page of data, or a table of one of three levels. An entry of a root
/// names a mid table, of a mid table a leaf table, of a leaf table a frame of data.
#[derive(Clone, Copy, Debug, PartialEq, Eq)]
pub enum Kind {
    /// A page of bytes.
    Data,
    /// A table of the lowest level.
    Leaf,
    /// A table of the middle level.
    Mid,
    /// A table of the highest level.
    Root,
}
