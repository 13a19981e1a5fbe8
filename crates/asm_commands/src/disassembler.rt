//! `dis`: an ELF file becomes a listing of its words.

ghost use Rattle.std.specs.Prelude.{◌≡◌, ◌≢◌, ◌≤◌, Err, IfErr, OnOk};
ghost use Rattle.asm_commands.specs.Conversion.{Writes, WritesNot};
ghost use Rattle.asm_commands.specs.Dis.{Lists};
ghost use Rattle.command_parts.specs.Outside.{see};

use crate::cause::AsmCause;
use crate::converting::{AsmRefusal, Conversion};
use crate::listing::write_listing;
use command_parts::Refusal;
use edge_streams::Sink;
use elf64::{check_image, segments_are_sound};
use std::alloc::Global;

/// An ELF file, as the listing of the words of its executable segments.
pub struct Disassembly;

impl Conversion for Disassembly {
    ghost use Rattle.asm_commands.specs.Dis.{Lists};

    ghost makes = { Lists };

    /// The lines go out as they are made, and nothing wants memory.
    fn write<K: Sink>(_alloc: Global, input: Vec<u8>, sink: &mut K) -> Result<(), AsmRefusal> {
        list(sink, &input)
    }
}

/// Writes the listing of an ELF file. The errors are that it is no image, and Write.
fn list<K: Sink>(sink: &mut K, file: &[u8]) -> Result<(), AsmRefusal>
    ensures done { OnOk result (Writes Lists file.now
        (see K.contents K.faults sink.old sink.new)) }
    ensures refused { IfErr result (WritesNot Lists file.now
        (see K.contents K.faults sink.old sink.new)) }
    ensures kept { IfErr result (λ refusal. refusal ≢ Refusal.Write
        → K.contents sink.new ≡ K.contents sink.old) }
    ensures counted { result ≢ Err Refusal.Write → K.faults sink.new ≡ K.faults sink.old }
    ensures never_falls { K.faults sink.old ≤ K.faults sink.new }
{
    segments_are_sound();
    let loads = match check_image(file) {
        Ok(loads) => loads,
        Err(fault) => return Err(Refusal::Own(AsmCause::Image(fault))),
    };
    match write_listing(sink, file, loads.as_slice()) {
        Ok(()) => Ok(()),
        Err(_) => Err(Refusal::Write),
    }
}
