//! One page, and what may be done with it.

ghost use Rattle.std.specs.Prelude.{◌≡◌};
ghost use Rattle.image_model.specs.Permission as permission;

use image_model::Region;

/// What may be done with the bytes of a page: whether they may be read, written and executed.
#[derive(Clone, Copy, Debug, PartialEq, Eq)]
pub struct Flags {
    pub r: bool,
    pub w: bool,
    pub x: bool,
}

/// A page with its bytes.
#[derive(Drop)]
pub struct Page {
    /// Its address divided by 4,096.
    pub number: u64,
    pub flags: Flags,
    /// Whether it was written.
    pub written: bool,
    /// Its 4,096 bytes.
    pub bytes: Vec<u8>,
}
