//! Where a run stops, how far it is, and why it stopped.

/// Where a run stops besides where its program does, and where one call of it pauses.
#[derive(Clone, Copy, Debug, PartialEq, Eq)]
pub struct Limits {
    /// It stops at this address, once an instruction was counted.
    pub trigger: Option<u64>,
    /// It stops after so many instructions.
    pub budget: u64,
    /// One call pauses after so many instructions.
    pub pause: Option<u64>,
}

/// What one call of a run does: from how many counted instructions on, and up to how many.
#[derive(Clone, Copy)]
pub struct Part {
    pub limits: Limits,
    pub from: u64,
    /// Where the call pauses, or the run's budget ends, whichever comes first.
    pub until: u64,
}

/// How far a run is.
#[derive(Clone, Copy, Debug, PartialEq, Eq)]
pub struct Progress {
    /// How many of its instructions were counted, over all its calls.
    pub done: u64,
}

/// Why a call of a run ended.
#[derive(Clone, Copy, Debug, PartialEq, Eq)]
pub enum RunEnd {
    /// The program waits for a packet, and none is queued.
    Rest,
    /// The program counter is at the trigger's address.
    Trigger,
    /// The program ended itself with this code.
    Halt(u64),
    /// The instruction at `pc` raises an exception: its cause and trap value (RISC-V
    /// privileged manual, "Machine Cause Register" and "Machine Trap Value Register"). It isn't
    /// done and isn't counted.
    Fault { cause: u64, pc: u64, tval: u64 },
    /// As many instructions were counted as the run may take.
    Budget,
    /// As many instructions were counted as this call may take. The run can go on.
    Paused,
    /// The next instruction needs more frames than the space has spares, and isn't done. The run
    /// can go on.
    NeedFrames,
    /// Memory ran out at the next instruction, which isn't done. The run can go on.
    Memory,
}
