//! One instruction: a function for each kind.

ghost use Rattle.std.specs.Prelude.{◌≡◌, ◌≢◌, ℕ, ◌<◌, ◌↔◌, if◌then◌else◌, true, None};
ghost use Rattle.hart.specs.Step.{StepDoes, UnlessRetired, WantsFrames};
ghost use Rattle.hart.specs.Step.{DoesNext, Lacks};
ghost use Rattle.instruction_model.specs.InstructionWord.{IsSound};
ghost use Rattle.machine_model.specs.Instruction as model;
ghost use Rattle.machine_model.specs.Machine.{least_failing};
ghost use Rattle.space_api.specs.Flat.{Flat, Traffic, machine_of, is_writable};
ghost use Rattle.space_api.specs.Frames.{need, Spent};

use crate::values::{
    imm_value, imm_w_value, immediate_word, is_taken, load_size, load_value, reg_value,
    reg_w_value, store_size, upper_value,
};
use instruction_model::{Inst, LoadOp, StoreOp};
use rv_base::add;
use rv_code::decode;
use space_api::{Access, Hart, Space};

/// The bytes of an instruction.
const WORD_SIZE: u64 = 4;

// Exception causes (RISC-V privileged manual, "Machine Cause Register").
const INSTRUCTION_ADDRESS_MISALIGNED: u64 = 0;

const ILLEGAL_INSTRUCTION: u64 = 2;

const BREAKPOINT: u64 = 3;

/// How a step ended. In all but `Retired` the hart and what the space means are as before.
#[derive(Clone, Copy, Debug, PartialEq, Eq)]
pub enum StepEnd {
    /// The instruction is done.
    Retired,
    /// The instruction is an ECALL, which the caller does.
    Call,
    /// The instruction raises an exception: its cause and trap value (RISC-V privileged manual,
    /// "Machine Cause Register" and "Machine Trap Value Register").
    Trap { cause: u64, tval: u64 },
    /// The instruction would retire, and takes more frames than the space has spares.
    NeedFrames,
    /// The instruction would retire, and the space lacks the memory for it.
    Memory,
}

/// Does the instruction at the program counter. It retires, or it is an ECALL, which is left to
/// the caller, or it raises an exception, by its cause and trap value. `NeedFrames` comes exactly
/// where it is a store that takes more frames than the space has spares, and `Memory` where it is
/// one for which the space lacks memory; then it can be tried again.
#[inline]
pub fn step<S: Space>(hart: &mut Hart, space: &mut S) -> StepEnd
    requires { S.finished space.old ≡ true }
    ensures does { (traffic : Traffic) → StepDoes result
        (machine_of hart.old (S.flat space.old) traffic)
        (machine_of hart.new (S.flat space.new) traffic) }
    ensures kept { UnlessRetired result ((hart.new ≡ hart.old)
        × (S.flat space.new ≡ S.flat space.old) × (S.spares space.new ≡ S.spares space.old)) }
    ensures frames { (traffic : Traffic) → (result ≡ StepEnd.NeedFrames)
        ↔ WantsFrames S.takes_frames (S.spares space.old)
        (machine_of hart.old (S.flat space.old) traffic) }
    ensures memory { result ≡ StepEnd.Memory → S.lacks_memory ≡ true }
    ensures spent { Spent S.takes_frames (S.spares space.old) (S.flat space.old).written
        (S.spares space.new) (S.flat space.new).written }
    ensures held { (S.finished space.new ≡ true) × (S.stake space.new ≡ S.stake space.old)
        × (S.span space.new ≡ S.span space.old) }
    ensures resting { hart.new.resting ≡ hart.old.resting }
{
    let word = match space.fetch(hart.pc) {
        Ok(word) => word,
        Err(Access::Fault { cause, addr }) => return trap(cause, addr),
        Err(Access::NeedFrames | Access::Memory) => unreachable!("a fetch takes neither"),
    };
    let Some(instruction) = decode(word) else {
        return trap(ILLEGAL_INSTRUCTION, u64::from(word));
    };
    execute(hart, space, instruction)
}

/// Does what an instruction does. Split off `step` for its proof, as what the clauses say
/// computes where the instruction is known.
#[inline]
fn execute<S: Space>(hart: &mut Hart, space: &mut S, instruction: Inst) -> StepEnd
    requires sound { IsSound instruction }
    requires finished { S.finished space.old ≡ true }
    ensures does { (word : ℕ) (traffic : Traffic) →
        let old = machine_of hart.old (S.flat space.old) traffic in
        DoesNext result (machine_of hart.new (S.flat space.new) traffic)
        (model.effect_of old word instruction) }
    ensures kept { UnlessRetired result ((hart.new ≡ hart.old)
        × (S.flat space.new ≡ S.flat space.old) × (S.spares space.new ≡ S.spares space.old)) }
    ensures frames { (traffic : Traffic) → (result ≡ StepEnd.NeedFrames)
        ↔ Lacks S.takes_frames (S.spares space.old)
        (machine_of hart.old (S.flat space.old) traffic) instruction }
    ensures memory { result ≡ StepEnd.Memory → S.lacks_memory ≡ true }
    ensures spent { Spent S.takes_frames (S.spares space.old) (S.flat space.old).written
        (S.spares space.new) (S.flat space.new).written }
    ensures held { (S.finished space.new ≡ true) × (S.stake space.new ≡ S.stake space.old)
        × (S.span space.new ≡ S.span space.old) }
    ensures resting { hart.new.resting ≡ hart.old.resting }
{
    let pc = hart.pc;
    match instruction {
        Inst::Lui { rd, n } => write(hart, rd, upper_value(n)),
        Inst::Auipc { rd, n } => write(hart, rd, add(pc, upper_value(n))),
        Inst::Jal { rd, offset } => link(hart, rd, add(pc, immediate_word(offset))),
        Inst::Jalr { rd, rs1, imm } => {
            let target = add(hart.register(rs1), immediate_word(imm)) / 2 * 2;
            link(hart, rd, target)
        }
        Inst::Branch {
            op,
            rs1,
            rs2,
            offset,
        } => {
            let taken = is_taken(op, hart.register(rs1), hart.register(rs2));
            branch(hart, taken, add(pc, immediate_word(offset)))
        }
        Inst::Load { op, rd, rs1, imm } => {
            let at = add(hart.register(rs1), immediate_word(imm));
            load(hart, space, op, rd, at)
        }
        Inst::Store { op, rs1, rs2, imm } => {
            let at = add(hart.register(rs1), immediate_word(imm));
            let value = hart.register(rs2);
            store(hart, space, op, at, value)
        }
        Inst::OpImm { op, rd, rs1, imm } => {
            let value = imm_value(op, hart.register(rs1), imm);
            write(hart, rd, value)
        }
        Inst::Op { op, rd, rs1, rs2 } => {
            let value = reg_value(op, hart.register(rs1), hart.register(rs2));
            write(hart, rd, value)
        }
        Inst::OpImmW { op, rd, rs1, imm } => {
            let value = imm_w_value(op, hart.register(rs1), imm);
            write(hart, rd, value)
        }
        Inst::OpW { op, rd, rs1, rs2 } => {
            let value = reg_w_value(op, hart.register(rs1), hart.register(rs2));
            write(hart, rd, value)
        }
        Inst::Fence { .. } => pass(hart),
        Inst::Ecall => StepEnd::Call,
        Inst::Ebreak => trap(BREAKPOINT, pc),
    }
}

/// The end of a step whose instruction raises an exception.
#[inline]
fn trap(cause: u64, tval: u64) -> StepEnd
    ensures { result ≡ StepEnd.Trap cause tval }
{
    StepEnd::Trap { cause, tval }
}

/// Goes on with the next instruction.
#[inline]
fn pass(hart: &mut Hart) -> StepEnd
    ensures end { result ≡ StepEnd.Retired }
    ensures does { (flat : Flat) (traffic : Traffic) →
        DoesNext result (machine_of hart.new flat traffic)
        (model.passes (machine_of hart.old flat traffic)) }
    ensures resting { hart.new.resting ≡ hart.old.resting }
{
    hart.pc = hart.pc.wrapping_add(WORD_SIZE);
    StepEnd::Retired
}

/// Writes a register.
#[inline]
pub fn write(hart: &mut Hart, rd: u8, value: u64) -> StepEnd
    requires { rd < 32 }
    ensures end { result ≡ StepEnd.Retired }
    ensures does { (flat : Flat) (traffic : Traffic) →
        DoesNext result (machine_of hart.new flat traffic)
        (model.writes (machine_of hart.old flat traffic) rd value) }
    ensures resting { hart.new.resting ≡ hart.old.resting }
{
    hart.set_register(rd, value);
    hart.pc = hart.pc.wrapping_add(WORD_SIZE);
    StepEnd::Retired
}

/// Goes on at the target, which is to be a multiple of 4.
#[inline]
fn jump(hart: &mut Hart, target: u64) -> StepEnd
    ensures does { (flat : Flat) (traffic : Traffic) →
        DoesNext result (machine_of hart.new flat traffic)
        (model.jumps (machine_of hart.old flat traffic) target) }
    ensures kept { UnlessRetired result (hart.new ≡ hart.old) }
    ensures frames { (result ≢ StepEnd.NeedFrames) × (result ≢ StepEnd.Memory) }
    ensures resting { hart.new.resting ≡ hart.old.resting }
{
    if target % WORD_SIZE != 0 {
        return trap(INSTRUCTION_ADDRESS_MISALIGNED, target);
    }
    hart.pc = target;
    StepEnd::Retired
}

/// Goes on at the target too, with the address of the next instruction in a register.
#[inline]
pub fn link(hart: &mut Hart, rd: u8, target: u64) -> StepEnd
    requires { rd < 32 }
    ensures does { (flat : Flat) (traffic : Traffic) →
        DoesNext result (machine_of hart.new flat traffic)
        (model.links (machine_of hart.old flat traffic) rd target) }
    ensures kept { UnlessRetired result (hart.new ≡ hart.old) }
    ensures frames { (result ≢ StepEnd.NeedFrames) × (result ≢ StepEnd.Memory) }
    ensures resting { hart.new.resting ≡ hart.old.resting }
{
    let next = hart.pc.wrapping_add(WORD_SIZE);
    if target % WORD_SIZE != 0 {
        return trap(INSTRUCTION_ADDRESS_MISALIGNED, target);
    }
    hart.set_register(rd, next);
    hart.pc = target;
    StepEnd::Retired
}

/// Goes on at the target if the branch is taken, and else with the next instruction.
#[inline]
pub fn branch(hart: &mut Hart, taken: bool, target: u64) -> StepEnd
    ensures does { (flat : Flat) (traffic : Traffic) →
        let old = machine_of hart.old flat traffic in
        DoesNext result (machine_of hart.new flat traffic)
        (if taken then model.jumps old target else model.passes old) }
    ensures kept { UnlessRetired result (hart.new ≡ hart.old) }
    ensures frames { (result ≢ StepEnd.NeedFrames) × (result ≢ StepEnd.Memory) }
    ensures resting { hart.new.resting ≡ hart.old.resting }
{
    if taken {
        jump(hart, target)
    } else {
        pass(hart)
    }
}

/// Loads a register from memory.
#[inline]
fn load<S: Space>(hart: &mut Hart, space: &mut S, op: LoadOp, rd: u8, at: u64) -> StepEnd
    requires register { rd < 32 }
    requires finished { S.finished space.old ≡ true }
    ensures does { (traffic : Traffic) →
        DoesNext result (machine_of hart.new (S.flat space.new) traffic)
        (model.loads (machine_of hart.old (S.flat space.old) traffic) op rd at) }
    ensures kept { UnlessRetired result (hart.new ≡ hart.old) }
    ensures frames { (result ≢ StepEnd.NeedFrames) × (result ≢ StepEnd.Memory) }
    ensures flat { S.flat space.new ≡ S.flat space.old }
    ensures spares { S.spares space.new ≡ S.spares space.old }
    ensures held { (S.finished space.new ≡ true) × (S.stake space.new ≡ S.stake space.old)
        × (S.span space.new ≡ S.span space.old) }
    ensures resting { hart.new.resting ≡ hart.old.resting }
{
    match space.load(at, load_size(op)) {
        Ok(number) => write(hart, rd, load_value(op, number)),
        Err(Access::Fault { cause, addr }) => trap(cause, addr),
        Err(Access::NeedFrames | Access::Memory) => unreachable!("a load takes neither"),
    }
}

/// Stores a word's low bytes in memory.
#[inline]
fn store<S: Space>(hart: &mut Hart, space: &mut S, op: StoreOp, at: u64, value: u64) -> StepEnd
    requires { S.finished space.old ≡ true }
    ensures does { (traffic : Traffic) →
        DoesNext result (machine_of hart.new (S.flat space.new) traffic)
        (model.stores (machine_of hart.old (S.flat space.old) traffic) op at value) }
    ensures kept { UnlessRetired result ((hart.new ≡ hart.old)
        × (S.flat space.new ≡ S.flat space.old) × (S.spares space.new ≡ S.spares space.old)) }
    ensures frames { (result ≡ StepEnd.NeedFrames)
        ↔ ((least_failing (is_writable (S.flat space.old)) at (model.store_size op) ≡ None)
        × (S.spares space.old
        < need S.takes_frames (S.flat space.old).written at (model.store_size op))) }
    ensures memory { result ≡ StepEnd.Memory → S.lacks_memory ≡ true }
    ensures spent { Spent S.takes_frames (S.spares space.old) (S.flat space.old).written
        (S.spares space.new) (S.flat space.new).written }
    ensures held { (S.finished space.new ≡ true) × (S.stake space.new ≡ S.stake space.old)
        × (S.span space.new ≡ S.span space.old) }
    ensures resting { hart.new.resting ≡ hart.old.resting }
{
    match space.store(at, store_size(op), value) {
        Ok(()) => pass(hart),
        Err(Access::Fault { cause, addr }) => trap(cause, addr),
        Err(Access::NeedFrames) => StepEnd::NeedFrames,
        Err(Access::Memory) => StepEnd::Memory,
    }
}
