//! What a request is answered.

ghost use Rattle.std.specs.Prelude.{◌≡◌, ◌≢◌, ◌<◌, IfOk, OnErr, Some, length};
ghost use Rattle.layer_model.specs.Layers.{IsNoLayer};
ghost use Rattle.layer_model.specs.Replies.{NoLayer, Ran};
ghost use Rattle.context_uc.specs.Runs.{HasRested};
ghost use Rattle.context_runs.specs.OfLayers.{StandsAbove, stop_of_why};
ghost use Rattle.context_runs.specs.OfRequests.{HasEnded, Replies, after_stop, ending_of};

use crate::request_run::RequestRun;
use context_uc::Context;
use hyper_calls::Ports;
use journal_model::{End, Packets, Why};
use machine_model::{Memory, Packet, Stop};
use space_api::{Given, Parked, Space};
use std::alloc::Global;

/// What a request's run, or the run of a layer that isn't there, is answered.
#[derive(Debug, Drop)]
pub struct RunReply {
    pub end: End,
    /// How many instructions of the request's own run were counted.
    pub steps: u64,
    /// The packets that were written.
    pub net: Packets,
    /// The console bytes that were written.
    pub console: Packet,
}

/// How a request ended whose run stopped so.
fn end_of(stop: Stop) -> End
    requires { stop ≢ Stop.Trigger }
    ensures { ending_of result ≡ Some (Ran stop) }
{
    match stop {
        Stop::Rest => End::Ok,
        Stop::Halt { code } => End::Halt { code },
        Stop::Exception { cause, pc, tval } => End::Fault { cause, pc, tval },
        Stop::Budget => End::Budget,
        Stop::Trigger => unreachable!(),
    }
}

/// Bytes that a run wrote, as a packet. The only error is want of memory: no run writes more than
/// a packet may have.
fn copy_bytes(alloc: Global, bytes: &[u8]) -> Result<Packet, Memory>
    ensures { IfOk result (λ packet. packet ≡ bytes.now) }
{
    Packet::new(Vec::from_slice(alloc, bytes)?).ok_or(Memory)
}

/// The packets that a run wrote, in order. The only error is want of memory.
fn copy_sent(alloc: Global, ports: &Ports) -> Result<Packets, Memory>
    ensures { IfOk result (λ packets. packets ≡ ports.now.traffic.sent) }
{
    let mut packets = Vec::with_capacity(alloc, ports.sent())?;
    'packets: for n in 0..ports.sent() {
        let packet = copy_bytes(alloc, ports.packet(n))?;
        if packets.push(packet).is_err() {
            return Err(Memory);
        }
    }
    Ok(Packets::new(packets))
}

/// What a run shows that stopped so, after so many instructions.
fn shown(alloc: Global, ports: &Ports, stop: Stop, steps: u64) -> Result<RunReply, Memory>
    requires { stop ≢ Stop.Trigger }
    ensures { IfOk result (λ r. (ending_of r.end ≡ Some (Ran stop)) × (r.steps ≡ steps)
        × (r.net ≡ ports.now.traffic.sent) × (r.console ≡ ports.now.traffic.console)) }
{
    Ok(RunReply {
        end: end_of(stop),
        steps,
        net: copy_sent(alloc, ports)?,
        console: copy_bytes(alloc, ports.console())?,
    })
}

/// Notes a request as served, where its run rested.
fn note<'a, S: Space>(context: &mut Context<'a, S>, given: Given, stop: Stop)
    requires rested { stop ≡ Stop.Rest →
        HasRested context.old (S.flat context.old.space) given }
    requires room { length context.old.served < context.old.uses }
    ensures { context.new ≡ after_stop stop given context.old }
{
    if let Stop::Rest = stop {
        context.served_one(given);
    }
}

/// The reply to a request whose run stopped so. Where it rested the request is noted as served, and
/// the context is between runs again, and may be parked; else the context stays as it is. The only
/// error is want of memory; the context stays as it is then too.
pub fn after_request<'a, S: Space>(
    alloc: Global,
    context: &mut Context<'a, S>,
    ports: &Ports,
    run: RequestRun,
    stop: Stop,
) -> Result<RunReply, Memory>
    requires ended { HasEnded context.old (S.flat context.old.space) ports.now run stop }
    ensures reply { IfOk result (λ r. Replies context.old run.given (Ran stop) r) }
    ensures served { IfOk result (λ r. context.new ≡ after_stop stop run.given context.old) }
    ensures same { OnErr result (context.new ≡ context.old) }
{
    let reply = shown(alloc, ports, stop, run.done)?;
    note(context, run.given, stop);
    Ok(reply)
}

/// The reply to a request whose context stands directly below a layer that isn't there, for this
/// reason. It takes no memory.
pub fn missed_reply<'a, S: Space>(
    alloc: Global,
    context: &Context<'a, S>,
    number: u16,
    why: Why,
) -> RunReply
    requires above { StandsAbove context.now.plan context.now.function context.now.layer number }
    requires none { IsNoLayer context.now.plan number (stop_of_why why) }
    ensures { (given : Given) →
        Replies context.now given (NoLayer number (stop_of_why why)) result }
{
    let console = match Packet::new(Vec::new(alloc)) {
        Some(packet) => packet,
        None => unreachable!(),
    };
    RunReply {
        end: End::NoLayer { k: number, why },
        steps: 0,
        net: Packets::none(alloc),
        console,
    }
}
