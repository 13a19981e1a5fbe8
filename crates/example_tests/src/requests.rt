//! The requests of an example, as its request lines spell them, and their replies.

use crate::problem::Problem;
use layer_model::Plan;
use machine_model::Packet;
use std::alloc::Global;

/// A request, and the lines of the replies that it got.
#[derive(Drop)]
pub struct Request {
    /// The number of its function.
    pub function: u16,
    pub packet: Packet,
    /// One for each context that answered it, in order.
    pub replies: Vec<String>,
}

/// The number of the function of a name.
fn function_named(plan: &Plan, name: &str) -> Option<u16> {
    for (number, function) in plan.functions().iter().enumerate() {
        if function.name.as_str() == name {
            return u16::try_from(number).ok();
        }
    }
    None
}

/// The packet that these digits spell: a dash is the empty one.
fn packet_of(alloc: Global, digits: &str) -> Option<Packet> {
    if digits == "-" {
        return Packet::new(Vec::new(alloc));
    }
    Packet::new(hex::decode(alloc, digits).ok()?)
}

/// The request of a line: the name of a function, a space, and the packet's digits.
fn request_of(alloc: Global, plan: &Plan, line: &str) -> Option<Request> {
    let (name, digits) = line.split_once(' ')?;
    Some(Request {
        function: function_named(plan, name)?,
        packet: packet_of(alloc, digits)?,
        replies: Vec::new(alloc),
    })
}

/// The requests of a text, one a line.
pub fn requests_of(alloc: Global, plan: &Plan, text: &str) -> Result<Vec<Request>, Problem> {
    let mut requests = Vec::new(alloc);
    for (number, line) in text.lines().enumerate() {
        let Some(request) = request_of(alloc, plan, line) else {
            return Err(Problem::Line(number));
        };
        requests.push(request).map_err(|_| Problem::Memory)?;
    }
    Ok(requests)
}
