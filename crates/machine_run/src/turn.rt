//! One turn of a run: an instruction, with its hypercall if it is one.

ghost use Rattle.std.specs.Prelude.{◌≡◌, ◌≢◌, ◌↔◌, ℕ, true};
ghost use Rattle.hyper_calls.specs.Outcomes.{ComesTo};
ghost use Rattle.machine_model.specs.Hypercall.{outcome};
ghost use Rattle.machine_model.specs.Instruction.{IsNext, Calls};
ghost use Rattle.machine_model.specs.Machine.{Machine};
ghost use Rattle.space_api.specs.Flat.{machine_of};
ghost use Rattle.space_api.specs.Frames.{Spent};
ghost use Rattle.machine_run.specs.Frames.{WantsFrames};
ghost use Rattle.machine_run.specs.Turns.{TurnDoes};

use crate::limits::RunEnd;
use hart::{StepEnd, step};
use hyper_calls::{CallEnd, Ports, call};
use space_api::{Hart, Space};

/// The exception cause of a hypercall that there isn't (RISC-V privileged manual, "Machine
/// Cause Register": environment call from U-mode).
const ENVIRONMENT_CALL: u64 = 8;

/// What a turn came to.
#[derive(Clone, Copy)]
pub enum Turn {
    /// The instruction is counted, and the run goes on.
    Goes,
    /// The instruction is counted, and the run ends so: it rests or halts.
    Counted(RunEnd),
    /// The instruction isn't done, and the run ends so: a fault, or want of frames or memory.
    Uncounted(RunEnd),
}

/// What a turn comes to whose hypercall, at `pc`, ended so.
#[inline]
fn turn_of(end: CallEnd, pc: u64) -> Turn
    ensures does { (clock : ℕ) (old new : Machine) → old.pc ≡ pc → IsNext old Calls →
        ComesTo end old new (outcome old clock) → TurnDoes result clock old new }
    ensures goes { (result ≡ Turn.Goes) ↔ (end ≡ CallEnd.Done) }
    ensures rest { end ≡ CallEnd.Rest → result ≡ Turn.Counted RunEnd.Rest }
    ensures frames { (result ≡ Turn.Uncounted RunEnd.NeedFrames) ↔ (end ≡ CallEnd.NeedFrames) }
    ensures memory { result ≡ Turn.Uncounted RunEnd.Memory → end ≡ CallEnd.Memory }
{
    match end {
        CallEnd::Done => Turn::Goes,
        CallEnd::Rest => Turn::Counted(RunEnd::Rest),
        CallEnd::Halt(code) => Turn::Counted(RunEnd::Halt(code)),
        CallEnd::BadCall(number) => Turn::Uncounted(RunEnd::Fault {
            cause: ENVIRONMENT_CALL,
            pc,
            tval: number,
        }),
        CallEnd::NeedFrames => Turn::Uncounted(RunEnd::NeedFrames),
        CallEnd::Memory => Turn::Uncounted(RunEnd::Memory),
    }
}

/// Does the next instruction.
#[inline]
pub fn take_turn<S: Space>(hart: &mut Hart, space: &mut S, ports: &mut Ports) -> Turn
    requires { S.finished space.old ≡ true }
    ensures does { TurnDoes result ports.old.clock
        (machine_of hart.old (S.flat space.old) ports.old.traffic)
        (machine_of hart.new (S.flat space.new) ports.new.traffic) }
    ensures clock { ports.new.clock ≡ ports.old.clock }
    ensures resting { result ≢ Turn.Counted RunEnd.Rest → hart.new.resting ≡ hart.old.resting }
    ensures frames { (result ≡ Turn.Uncounted RunEnd.NeedFrames)
        ↔ WantsFrames S.takes_frames (S.spares space.old) ports.old.clock
        (machine_of hart.old (S.flat space.old) ports.old.traffic) }
    ensures memory { result ≡ Turn.Uncounted RunEnd.Memory → S.lacks_memory ≡ true }
    ensures kept { result ≢ Turn.Goes → S.spares space.new ≡ S.spares space.old }
    ensures spent { Spent S.takes_frames (S.spares space.old) (S.flat space.old).written
        (S.spares space.new) (S.flat space.new).written }
    ensures held { (S.finished space.new ≡ true) × (S.stake space.new ≡ S.stake space.old)
        × (S.span space.new ≡ S.span space.old) }
{
    let pc = hart.pc;
    match step(hart, space) {
        StepEnd::Retired => Turn::Goes,
        StepEnd::Call => turn_of(call(hart, space, ports), pc),
        StepEnd::Trap { cause, tval } => Turn::Uncounted(RunEnd::Fault { cause, pc, tval }),
        StepEnd::NeedFrames => Turn::Uncounted(RunEnd::NeedFrames),
        StepEnd::Memory => Turn::Uncounted(RunEnd::Memory),
    }
}
