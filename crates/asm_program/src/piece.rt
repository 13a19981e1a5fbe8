//! Bytes of a segment.

ghost use Rattle.std.specs.Prelude.{◌≡◌, IsTrue};
ghost use Rattle.asm_lines.specs.Said.{said_data};
ghost use Rattle.asm_program.specs.Program.{byte_count};
ghost use Rattle.asm_program.specs.Registers.{has_registers};

use asm_lines::Data;

/// Bytes of a segment, by what a line says.
#[derive(Drop)]
pub struct Piece<'a> {
    /// The line, from 1 on.
    pub line: u32,
    /// How many bytes of the segment stand before them.
    pub offset: u64,
    /// What the line says.
    pub says: Data<'a>,
    pub ghost registers: { IsTrue (has_registers (said_data says)) },
}

/// How many bytes they are.
pub fn byte_count(says: &Data) -> u64
    ensures { result ≡ byte_count (said_data says.now) }
{
    match *says {
        Data::Word(_) => 4,
        Data::Byte(_) => 1,
        Data::Zeros(n) => n,
        Data::BranchTo { .. } => 4,
        Data::JumpTo { .. } => 4,
    }
}
