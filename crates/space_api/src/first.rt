//! The hart before a program's first instruction.

ghost use Rattle.std.specs.Prelude.{◌≡◌, ◌%◌, ◌^◌, false};
ghost use Rattle.machine_model.specs.Loaded.{loaded};
ghost use Rattle.space_api.specs.Flat.{Traffic, machine_of, flat_of};

use image_model::Start;
use machine_model::{Hart, REGISTERS};

/// Where the stack ends.
const STACK_END: u64 = 1 << 38;

/// The stack pointer (RISC-V ELF psABI, "Integer Register Convention").
const SP: u8 = 2;

/// The hart before a program's first instruction: the program counter is at the entry, x2 is
/// 2^38, and every other register is 0. With the space of the start it is the loaded machine.
pub fn first_hart(start: &Start) -> Hart
    ensures { (traffic : Traffic) → machine_of result (flat_of start.now) traffic
        ≡ record (loaded start.now) {
          queue = traffic.queue;
          sent = traffic.sent;
          console = traffic.console;
        } }
{
    start.keeps_layout();
    let mut hart = Hart {
        x: [0; REGISTERS],
        pc: start.entry(),
        resting: false,
    };
    hart.set_register(SP, STACK_END);
    hart
}
