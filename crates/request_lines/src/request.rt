//! A request.

use machine_model::Packet;

/// A packet for a function.
#[derive(Debug, Drop)]
pub struct Request {
    /// The function's number: the place of its name among the names, from 0.
    pub function: u16,
    /// What the function is given.
    pub packet: Packet,
}
