//! The hypercalls, by which a program reaches the outside: a function for each.

ghost use Rattle.std.specs.Prelude.{◌≡◌, ◌≢◌, ◌+◌, ◌%◌, ◌^◌, ◌↔◌, true, slice_index};
ghost use Rattle.machine_model.specs.Hypercall as model;
ghost use Rattle.machine_model.specs.Hypercall.{outcome};
ghost use Rattle.machine_model.specs.Machine.{with_register};
ghost use Rattle.space_api.specs.Flat.{Flat, Traffic, machine_of};
ghost use Rattle.space_api.specs.Frames.{Spent};
ghost use Rattle.hyper_calls.specs.Outcomes.{ComesTo, WantsFrames, LacksRead};

use crate::call_end::CallEnd;
use crate::ports::Ports;
use crate::reading::Reading;
use machine_model::Hart;
use space_api::{Access, Space};

// The registers of a hypercall's number, arguments and results.
const A7: u8 = 17;

const A0: u8 = 10;

const A1: u8 = 11;

// The hypercalls by their numbers.
const CLOCK_READ: u64 = 1;

const CONSOLE_WRITE: u64 = 2;

const WAIT: u64 = 3;

const NET_WRITE: u64 = 6;

const NET_READ: u64 = 7;

const HALT: u64 = 8;

// Their results.
const OK: u64 = 0;

/// No packet is queued, for net read.
const AGAIN: u64 = 1;

const INVALID: u64 = 2;

/// A packet is queued, for wait.
const PACKET_QUEUED: u64 = 1;

/// Goes on after the ECALL.
#[inline]
fn advance(hart: &mut Hart)
    ensures x { hart.new.x ≡ hart.old.x }
    ensures pc { hart.new.pc ≡ (hart.old.pc + 4) % 2 ^ 64 }
    ensures resting { hart.new.resting ≡ hart.old.resting }
{
    hart.pc = hart.pc.wrapping_add(4);
}

/// Goes on after the ECALL, with the result in a0.
#[inline]
fn answer(hart: &mut Hart, result_code: u64)
    ensures x { hart.new.x ≡ with_register 10 result_code hart.old.x }
    ensures pc { hart.new.pc ≡ (hart.old.pc + 4) % 2 ^ 64 }
    ensures resting { hart.new.resting ≡ hart.old.resting }
{
    hart.set_register(A0, result_code);
    advance(hart);
}

/// Waits for a packet, unless one is queued.
fn wait(hart: &mut Hart, ports: &Ports) -> CallEnd
    ensures frames { (result ≢ CallEnd.NeedFrames) × (result ≢ CallEnd.Memory) }
    ensures resting { result ≢ CallEnd.Rest → hart.new.resting ≡ hart.old.resting }
    ensures ends { (flat : Flat) → let old = machine_of hart.old flat ports.now.traffic in
        ComesTo result old (machine_of hart.new flat ports.now.traffic)
        (model.waits old old.queue) }
{
    if ports.is_queued() {
        answer(hart, PACKET_QUEUED);
        return CallEnd::Done;
    }
    advance(hart);
    hart.resting = true;
    CallEnd::Rest
}

/// Writes bytes to the console.
fn write_console<S: Space>(
    hart: &mut Hart,
    space: &mut S,
    ports: &mut Ports,
    at: u64,
    size: u64,
) -> CallEnd
    requires { S.finished space.old ≡ true }
    ensures ends { let old = machine_of hart.old (S.flat space.old) ports.old.traffic in
        ComesTo result old (machine_of hart.new (S.flat space.new) ports.new.traffic)
        (model.console_writes old at size) }
    ensures clock { ports.new.clock ≡ ports.old.clock }
    ensures resting { hart.new.resting ≡ hart.old.resting }
    ensures frames { (result ≢ CallEnd.NeedFrames) × (result ≢ CallEnd.Memory) }
    ensures spares { S.spares space.new ≡ S.spares space.old }
    ensures held { (S.finished space.new ≡ true) × (S.stake space.new ≡ S.stake space.old)
        × (S.span space.new ≡ S.span space.old) }
{
    match ports.write_console(space, at, size) {
        Reading::Done => {
            answer(hart, OK);
            CallEnd::Done
        }
        Reading::Refused => {
            answer(hart, INVALID);
            CallEnd::Done
        }
    }
}

/// Writes a packet.
fn write_packet<S: Space>(
    hart: &mut Hart,
    space: &mut S,
    ports: &mut Ports,
    at: u64,
    size: u64,
) -> CallEnd
    requires { S.finished space.old ≡ true }
    ensures ends { let old = machine_of hart.old (S.flat space.old) ports.old.traffic in
        ComesTo result old (machine_of hart.new (S.flat space.new) ports.new.traffic)
        (model.net_writes old at size) }
    ensures clock { ports.new.clock ≡ ports.old.clock }
    ensures resting { hart.new.resting ≡ hart.old.resting }
    ensures frames { (result ≢ CallEnd.NeedFrames) × (result ≢ CallEnd.Memory) }
    ensures spares { S.spares space.new ≡ S.spares space.old }
    ensures held { (S.finished space.new ≡ true) × (S.stake space.new ≡ S.stake space.old)
        × (S.span space.new ≡ S.span space.old) }
{
    match ports.write_packet(space, at, size) {
        Reading::Done => {
            answer(hart, OK);
            CallEnd::Done
        }
        Reading::Refused => {
            answer(hart, INVALID);
            CallEnd::Done
        }
    }
}

/// Reads the next packet that is queued.
fn read_packet<S: Space>(
    hart: &mut Hart,
    space: &mut S,
    ports: &mut Ports,
    at: u64,
    room: u64,
) -> CallEnd
    requires { S.finished space.old ≡ true }
    ensures ends { let old = machine_of hart.old (S.flat space.old) ports.old.traffic in
        ComesTo result old (machine_of hart.new (S.flat space.new) ports.new.traffic)
        (model.net_reads old at room old.queue) }
    ensures clock { ports.new.clock ≡ ports.old.clock }
    ensures resting { hart.new.resting ≡ hart.old.resting }
    ensures frames { let old = machine_of hart.old (S.flat space.old) ports.old.traffic in
        (result ≡ CallEnd.NeedFrames)
        ↔ LacksRead S.takes_frames (S.spares space.old) old at room old.queue }
    ensures memory { result ≡ CallEnd.Memory → S.lacks_memory ≡ true }
    ensures kept { result ≢ CallEnd.Done → S.spares space.new ≡ S.spares space.old }
    ensures spent { Spent S.takes_frames (S.spares space.old) (S.flat space.old).written
        (S.spares space.new) (S.flat space.new).written }
    ensures held { (S.finished space.new ≡ true) × (S.stake space.new ≡ S.stake space.old)
        × (S.span space.new ≡ S.span space.old) }
{
    if !ports.is_queued() {
        answer(hart, AGAIN);
        return CallEnd::Done;
    }
    let packet = ports.next();
    let size = packet.len() as u64;
    if size > room {
        answer(hart, INVALID);
        return CallEnd::Done;
    }
    match space.write_from(at, packet) {
        Ok(()) => {
            ports.advance();
            answer(hart, OK);
            hart.set_register(A1, size);
            CallEnd::Done
        }
        Err(Access::Fault { .. }) => {
            answer(hart, INVALID);
            CallEnd::Done
        }
        Err(Access::NeedFrames) => CallEnd::NeedFrames,
        Err(Access::Memory) => CallEnd::Memory,
    }
}

/// Does the hypercall by its number. Split off `call` for its proof, as which frames are wanted is
/// said here of a net read alone.
fn call_by_number<S: Space>(hart: &mut Hart, space: &mut S, ports: &mut Ports) -> CallEnd
    requires { S.finished space.old ≡ true }
    ensures ends { let old = machine_of hart.old (S.flat space.old) ports.old.traffic in
        ComesTo result old (machine_of hart.new (S.flat space.new) ports.new.traffic)
        (outcome old ports.old.clock) }
    ensures clock { ports.new.clock ≡ ports.old.clock }
    ensures resting { result ≢ CallEnd.Rest → hart.new.resting ≡ hart.old.resting }
    ensures frames { let old = machine_of hart.old (S.flat space.old) ports.old.traffic in
        (result ≡ CallEnd.NeedFrames) ↔ ((slice_index hart.old.x 17 ≡ model.net_read)
        × LacksRead S.takes_frames (S.spares space.old) old (slice_index hart.old.x 10)
        (slice_index hart.old.x 11) old.queue) }
    ensures memory { result ≡ CallEnd.Memory →
        (slice_index hart.old.x 17 ≡ model.net_read) × (S.lacks_memory ≡ true) }
    ensures kept { result ≢ CallEnd.Done → S.spares space.new ≡ S.spares space.old }
    ensures spent { Spent S.takes_frames (S.spares space.old) (S.flat space.old).written
        (S.spares space.new) (S.flat space.new).written }
    ensures held { (S.finished space.new ≡ true) × (S.stake space.new ≡ S.stake space.old)
        × (S.span space.new ≡ S.span space.old) }
{
    let first = hart.register(A0);
    let second = hart.register(A1);
    match hart.register(A7) {
        CLOCK_READ => {
            answer(hart, ports.clock());
            CallEnd::Done
        }
        CONSOLE_WRITE => write_console(hart, space, ports, first, second),
        WAIT => wait(hart, ports),
        NET_WRITE => write_packet(hart, space, ports, first, second),
        NET_READ => read_packet(hart, space, ports, first, second),
        HALT => {
            advance(hart);
            CallEnd::Halt(first)
        }
        number => CallEnd::BadCall(number),
    }
}

/// Does the hypercall at which the hart stands. It takes no memory of its own.
pub fn call<S: Space>(hart: &mut Hart, space: &mut S, ports: &mut Ports) -> CallEnd
    requires { S.finished space.old ≡ true }
    ensures ends { let old = machine_of hart.old (S.flat space.old) ports.old.traffic in
        ComesTo result old (machine_of hart.new (S.flat space.new) ports.new.traffic)
        (outcome old ports.old.clock) }
    ensures clock { ports.new.clock ≡ ports.old.clock }
    ensures resting { result ≢ CallEnd.Rest → hart.new.resting ≡ hart.old.resting }

    // Frames are wanted exactly where the hypercall would be done and takes more than there are.
    ensures frames { (result ≡ CallEnd.NeedFrames)
        ↔ WantsFrames S.takes_frames (S.spares space.old) ports.old.clock
        (machine_of hart.old (S.flat space.old) ports.old.traffic) }

    // Memory is wanted by a net read alone, where the space may lack it.
    ensures memory { result ≡ CallEnd.Memory →
        (slice_index hart.old.x 17 ≡ model.net_read) × (S.lacks_memory ≡ true) }

    // Spares are spent by a hypercall that is done, at most as many as it takes frames.
    ensures kept { result ≢ CallEnd.Done → S.spares space.new ≡ S.spares space.old }
    ensures spent { Spent S.takes_frames (S.spares space.old) (S.flat space.old).written
        (S.spares space.new) (S.flat space.new).written }
    ensures held { (S.finished space.new ≡ true) × (S.stake space.new ≡ S.stake space.old)
        × (S.span space.new ≡ S.span space.old) }
{
    call_by_number(hart, space, ports)
}
