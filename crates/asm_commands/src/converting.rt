//! A command that converts its source: what is made of the source's bytes is written.

ghost use Rattle.std.specs.Prelude.{◌≡◌, ◌≢◌, ℕ, ◌≤◌, length, Err, IfErr, OnOk};
ghost use Rattle.asm_commands.specs.Asm.{Assembles};
ghost use Rattle.asm_commands.specs.Conversion.{Makes, ConversionDoes, ConversionEnds};
ghost use Rattle.asm_commands.specs.Conversion.{Writes, WritesNot, source_limit};
ghost use Rattle.asm_commands.specs.Dis.{Lists};
ghost use Rattle.command_parts.specs.Ending.{Keeps, Leaves};
ghost use Rattle.command_parts.specs.Outside.{Contents, outside, no_sink, see, seen};

use crate::assembler::Assembly;
use crate::cause::AsmCause;
use crate::disassembler::Disassembly;
use command_parts::{Given, Refusal, Shows, Status, finish, read_source};
use edge_files::Files;
use edge_streams::{Sink, Source};
use image_model::FILE_LIMIT;
use std::alloc::Global;

/// Why a conversion is refused.
pub type AsmRefusal = Refusal<AsmCause>;

/// The most bytes of a source.
const SOURCE_LIMIT: usize = FILE_LIMIT as usize;

/// What comes of a source's bytes.
pub trait Conversion {
    /// What comes of which bytes: others, or a cause of refusal.
    ghost makes: { Makes };

    /// Writes what comes of the bytes, no more than 16,777,216. A write that fails leaves a part of
    /// it, from the front; where it is refused for another cause nothing was written.
    ///
    /// The errors are the cause that comes of the bytes, Write and Memory.
    fn write<K: Sink>(alloc: Global, input: Vec<u8>, sink: &mut K) -> Result<(), AsmRefusal>
        requires { length input.items ≤ source_limit }
        ensures done { OnOk result (Writes makes input.items
            (see K.contents K.faults sink.old sink.new)) }
        ensures refused { IfErr result (WritesNot makes input.items
            (see K.contents K.faults sink.old sink.new)) }
        ensures kept { IfErr result (λ refusal. refusal ≢ Refusal.Write
            → K.contents sink.new ≡ K.contents sink.old) }
        ensures counted { result ≢ Err Refusal.Write → K.faults sink.new ≡ K.faults sink.old }
        ensures never_falls { K.faults sink.old ≤ K.faults sink.new };
}

/// Reads the source to its end, and writes what comes of its bytes.
fn convert<C: Conversion, S: Source, K: Sink>(
    alloc: Global,
    source: &mut S,
    sink: &mut K,
) -> Result<(), AsmRefusal>
    ensures does { ConversionDoes C.makes (see S.remaining S.faults source.old source.new)
        (see K.contents K.faults sink.old sink.new) result }
    ensures keeps { (files : Contents) (faults : ℕ)
        → Keeps (outside (seen files files faults faults)
        (see S.remaining S.faults source.old source.new)
        (see K.contents K.faults sink.old sink.new) no_sink) result }
{
    let input = read_source::<AsmCause, S>(alloc, source, SOURCE_LIMIT)?;
    C::write(alloc, input, sink)
}

/// `asm`: the source is assembler text, whose ELF file is written. A refusal is reported. Files
/// stay as they are.
///
/// It answers 0, or the status of the refusal: 3 where a line of the text is refused or the text
/// is too long, 4, 5 and 7 as all commands do.
pub fn asm<'a, F: Files, S: Source, K: Sink, E: Sink>(
    alloc: Global,
    given: &mut Given<'a, F, S, K, E>,
) -> Status
    ensures ends { ConversionEnds Assembles
        (⟦<Given<'a, F, S, K, E> as Shows>⟧.outside given.old given.new) result }
    ensures leaves { Leaves (⟦<Given<'a, F, S, K, E> as Shows>⟧.outside given.old given.new)
        result }
    ensures files { F.contents given.new.files.now ≡ F.contents given.old.files.now }
    ensures same { ⟦<Given<'a, F, S, K, E> as Shows>⟧.names given.new
        ≡ ⟦<Given<'a, F, S, K, E> as Shows>⟧.names given.old }
{
    let outcome = convert::<Assembly, S, K>(alloc, given.source, given.sink);
    finish(given.errs, outcome)
}

/// `dis`: the source is an ELF file; a line for each word of its executable segments is written.
/// A refusal is reported. Files stay as they are.
///
/// It answers 0, or the status of the refusal: 2 where the source is no image, 3 where it is too
/// long, 4, 5 and 7 as all commands do.
pub fn dis<'a, F: Files, S: Source, K: Sink, E: Sink>(
    alloc: Global,
    given: &mut Given<'a, F, S, K, E>,
) -> Status
    ensures ends { ConversionEnds Lists
        (⟦<Given<'a, F, S, K, E> as Shows>⟧.outside given.old given.new) result }
    ensures leaves { Leaves (⟦<Given<'a, F, S, K, E> as Shows>⟧.outside given.old given.new)
        result }
    ensures files { F.contents given.new.files.now ≡ F.contents given.old.files.now }
    ensures same { ⟦<Given<'a, F, S, K, E> as Shows>⟧.names given.new
        ≡ ⟦<Given<'a, F, S, K, E> as Shows>⟧.names given.old }
{
    let outcome = convert::<Disassembly, S, K>(alloc, given.source, given.sink);
    finish(given.errs, outcome)
}
