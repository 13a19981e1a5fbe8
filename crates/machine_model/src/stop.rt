//! Why a run stops.

/// Why a run of the machine stops.
#[derive(Clone, Copy, Debug, PartialEq, Eq)]
pub enum Stop {
    /// The program counter is at the trigger's address.
    Trigger,
    /// As many instructions were counted as the run may take.
    Budget,
    /// The instruction at `pc` raises an exception: its cause and trap value (RISC-V
    /// privileged manual, "Machine Cause Register" and "Machine Trap Value Register").
    Exception { cause: u64, pc: u64, tval: u64 },
    /// The program waits for a packet and none is queued.
    Rest,
    /// The program ended itself with this code.
    Halt { code: u64 },
}
