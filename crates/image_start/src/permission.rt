//! What may be done with the bytes of a page.

ghost use Rattle.std.specs.Prelude.{◌≡◌, ◌<◌, ◌↔◌, IsTrue};
ghost use Rattle.image_model.specs.Permission as permission;
ghost use Rattle.image_model.specs.StartOf as model;

// The flags of a segment.
const EXECUTE: u32 = 1;

const WRITE: u32 = 2;

const READ: u32 = 4;

/// What may be done with the bytes of a page. What may be written may be read.
#[derive(Clone, Copy, Debug, PartialEq, Eq)]
pub struct Permission {
    pub readable: bool,
    pub writable: bool,
    pub executable: bool,
    ghost readable_too: { IsTrue writable → IsTrue readable },
}

/// Nothing may be done.
pub const NO_PERMISSION: Permission = Permission {
    readable: false,
    writable: false,
    executable: false,
};

/// What may be done with a page of the stack.
pub const STACK_PERMISSION: Permission = Permission {
    readable: true,
    writable: true,
    executable: false,
};

impl Permission {
    ghost use Rattle.image_start.specs.Permission.{permission_of};

    /// What a segment's flags allow. What may be written may be read.
    pub fn of_flags(flags: u32) -> Permission
        ensures { permission_of result ≡ model.flags_permission flags }
    {
        Permission {
            readable: has_flag(flags, READ) || has_flag(flags, WRITE),
            writable: has_flag(flags, WRITE),
            executable: has_flag(flags, EXECUTE),
        }
    }

    /// What the one or the other allows.
    pub fn joined(self, other: Permission) -> Permission
        ensures { permission_of result
            ≡ permission.joined_permission (permission_of self) (permission_of other) }
    {
        Permission {
            readable: self.readable || other.readable,
            writable: self.writable || other.writable,
            executable: self.executable || other.executable,
        }
    }

    /// Whether it allows anything.
    pub fn is_some(self) -> bool
        ensures { result ≡ permission.is_some_permission (permission_of self) }
    {
        self.readable || self.writable || self.executable
    }

    /// Whether it allows the same.
    pub fn is(self, other: Permission) -> bool
        ensures { IsTrue result ↔ (permission_of self ≡ permission_of other) }
    {
        self.readable == other.readable
            && self.writable == other.writable
            && self.executable == other.executable
    }
}

/// Whether the flag is set.
fn has_flag(flags: u32, flag: u32) -> bool
    requires { 0 < flag }
    ensures { result ≡ model.has_flag flags flag }
{
    flags / flag % 2 == 1
}
