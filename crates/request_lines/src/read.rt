//! The requests of a text.

ghost use Rattle.std.specs.Prelude.{◌≡◌, ◌≢◌, ◌≤◌, ◌^◌, IfOk, IfErr, Ok, Err, length};
ghost use Rattle.request_lines.specs.Requests as spec;

use crate::fault::{LineFault, LineKind};
use crate::packet::packet_of;
use crate::request::Request;
use crate::split::split_line;
use crate::words::{function_of, words};
use space_api::Names;
use std::alloc::{AllocError, Global};

/// The most lines of a text.
pub const MOST_LINES: u32 = 4_096;

/// The request that a line says, or the first of `Shape`, `Name`, `Hex` and `Long`. The only error
/// is want of memory.
#[tactic(auto, unfolding(crate::specs::Requests::request_of))]
fn request_of(
    alloc: Global,
    names: &Names,
    line: &[u8],
) -> Result<Result<Request, LineKind>, AllocError>
    requires { length names.now ≤ 2 ^ 16 }
    ensures { IfOk result (λ request. request ≡ spec.request_of names.now line.now) }
{
    let Some((name, digits)) = words(line) else {
        return Ok(Err(LineKind::Shape));
    };
    let Some(function) = function_of(names, name) else {
        return Ok(Err(LineKind::Name));
    };
    match packet_of(alloc, digits)? {
        Ok(packet) => Ok(Ok(Request { function, packet })),
        Err(kind) => Ok(Err(kind)),
    }
}

/// The requests of a text, one a line, in order.
///
/// `At` comes exactly where a line has a fault, and is the first line that has one. `Memory` comes
/// for want of memory.
pub fn read_requests(alloc: Global, bytes: &[u8], names: &Names) -> Result<Vec<Request>, LineFault>
    requires { length names.now ≤ 2 ^ 16 }
    ensures requests { IfOk result (λ requests.
        spec.requests_of names.now bytes.now ≡ Ok requests.items) }
    ensures fault { IfErr result (λ fault. fault ≢ LineFault.Memory →
        spec.requests_of names.now bytes.now ≡ Err fault) }
{
    let mut requests = Vec::new(alloc);
    let mut number = 1;
    let mut rest = bytes;
    'lines: while !rest.is_empty() {
        if number > MOST_LINES {
            return Err(LineFault::At {
                line: number,
                kind: LineKind::Many,
            });
        }
        let (line, behind) = split_line(rest);
        match request_of(alloc, names, line)? {
            Ok(request) => requests.push(request)?,
            Err(kind) => return Err(LineFault::At { line: number, kind }),
        }
        number += 1;
        rest = behind;
    }
    Ok(requests)
}
