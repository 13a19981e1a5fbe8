//! What stands between the start and the answer of a request.

/// What the answer of each request goes through. It always answers.
pub trait Gate {
    /// Lets the answer of request `i` through.
    fn pass(&self, i: u32);
}

/// A gate that lets each request through at once.
#[derive(Clone, Copy, Debug, Default)]
pub struct MemGate;

impl Gate for MemGate {
    /// Does nothing.
    fn pass(&self, _i: u32) {}
}
