//! The line of a reply.

ghost use Rattle.std.specs.Prelude.{◌≡◌, map, string_bytes, IfOk};
ghost use Rattle.call_command.specs.ReplyLine as model;
ghost use Rattle.machine_model.specs.declared.stop.Stop.TheVariants.{Exception};

use hyper_calls::Ports;
use machine_model::Stop;
use std::alloc::{AllocError, Global};

/// The end of a run whose instruction raised an exception.
fn exception_text(alloc: Global, cause: u64, pc: u64, tval: u64) -> Result<String, AllocError>
    ensures { IfOk result (λ text. string_bytes text ≡ model.end_text (Exception cause pc tval)) }
{
    format!(in alloc; "fault:{cause}:{pc:x}:{tval:x}")
}

/// The end of a run.
fn end_text(alloc: Global, stop: Stop) -> Result<String, AllocError>
    ensures { IfOk result (λ text. string_bytes text ≡ model.end_text stop) }
{
    match stop {
        Stop::Rest => String::from_str(alloc, "ok"),
        Stop::Halt { code } => format!(in alloc; "halt:{code}"),
        Stop::Exception { cause, pc, tval } => exception_text(alloc, cause, pc, tval),
        Stop::Budget => String::from_str(alloc, "budget"),
        Stop::Trigger => String::from_str(alloc, "trigger"),
    }
}

/// Bytes in hexadecimal, or a dash where there are none.
fn bytes_text(alloc: Global, bytes: &[u8]) -> Result<String, AllocError>
    ensures { IfOk result (λ text. string_bytes text ≡ model.bytes_text bytes.now) }
{
    if bytes.is_empty() {
        String::from_str(alloc, "-")
    } else {
        hex::encode(alloc, bytes)
    }
}

/// The packets that a run wrote, joined by slashes, or `none`.
fn packets_text(alloc: Global, ports: &Ports) -> Result<String, AllocError>
    ensures { IfOk result (λ text. string_bytes text ≡ model.packets_text ports.now.traffic.sent) }
{
    if ports.sent() == 0 {
        return String::from_str(alloc, "none");
    }
    let mut text = bytes_text(alloc, ports.packet(0))?;
    'packets: for n in 1..ports.sent() {
        let packet = bytes_text(alloc, ports.packet(n))?;
        text.push('/')?;
        text.push_str(packet.as_str())?;
    }
    Ok(text)
}

/// `END STEPS PACKETS CONSOLE`, as a line: why a run stopped, after how many instructions, and
/// what it wrote.
pub fn reply_line(
    alloc: Global,
    stop: Stop,
    number: u64,
    ports: &Ports,
) -> Result<String, AllocError>
    ensures { IfOk result (λ line. string_bytes line
        ≡ model.reply_line stop number ports.now.traffic.sent ports.now.traffic.console) }
{
    let end = end_text(alloc, stop)?;
    let packets = packets_text(alloc, ports)?;
    let console = bytes_text(alloc, ports.console())?;
    format!(in alloc; "{end} {number} {packets} {console}\n")
}
