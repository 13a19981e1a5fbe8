//! A hardware thread: its registers, and whether it waits.

ghost use Rattle.std.specs.Prelude.{◌≡◌, ◌<◌, ◌%◌, slice_index};
ghost use Rattle.machine_model.specs.Machine.{with_register};

/// How many registers there are, x0 to x31.
pub const REGISTERS: usize = 32;

/// The integer registers and the program counter (RISC-V unprivileged manual,
/// "Programmers' Model for Base Integer ISA"), and whether the program waits for a packet.
///
/// x0 is 0, and the program counter is a multiple of 4.
#[derive(Clone, Copy, Debug, PartialEq, Eq)]
pub struct Hart {
    pub x: [u64; REGISTERS],
    pub pc: u64,
    pub resting: bool,
    ghost zero: { slice_index x 0 ≡ 0 },
    ghost aligned: { pc % 4 ≡ 0 },
}

impl Hart {
    /// The word in a register, 0 to 31.
    #[inline]
    pub fn register(&self, register: u8) -> u64
        requires { register < 32 }
        ensures { result ≡ slice_index self.now.x register }
    {
        self.x[register as usize]
    }

    /// Writes a register, 0 to 31. A write of x0 is lost.
    #[inline]
    pub fn set_register(&mut self, register: u8, value: u64)
        requires { register < 32 }
        ensures x { self.new.x ≡ with_register register value self.old.x }
        ensures pc { self.new.pc ≡ self.old.pc }
        ensures resting { self.new.resting ≡ self.old.resting }
    {
        if register != 0 {
            self.x[register as usize] = value;
        }
    }
}
