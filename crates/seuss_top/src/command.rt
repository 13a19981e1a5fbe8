//! The program's commands.

ghost use Rattle.std.specs.Prelude.{◌≡◌, ◌≢◌, ℕ, ◌≤◌, ◌⊎◌, ◌↔◌};
ghost use Rattle.command_parts.specs.Ending.{Reports};
ghost use Rattle.command_parts.specs.Outside.{outside, see};
ghost use Rattle.seuss_top.specs.Arguments.{texts};
ghost use Rattle.seuss_top.specs.Command as spec;

use crate::arguments::parse;
use crate::no_form::NoForm;
use asm_commands::{asm, dis};
use call_command::call;
use command_parts::{Given, Refusal, Shows, Status, finish};
use edge_files::Files;
use edge_streams::{Sink, Source};
use std::alloc::Global;

/// A command with its arguments.
#[derive(Clone, Copy, Debug)]
pub enum Command<'a> {
    /// `call IMAGE`: the image of the file IMAGE runs once.
    Call { image: &'a str },
    /// `asm`: assembler text becomes an ELF file.
    Asm,
    /// `dis`: an ELF file becomes a listing of its words.
    Dis,
}

/// What became of a command.
#[derive(Clone, Copy, Debug, PartialEq, Eq)]
pub enum Plain {
    /// It ended with this status.
    Done(Status),
}

/// Does the command that the arguments are, or says that they are none.
fn perform<'a, F: Files, S: Source, K: Sink, E: Sink>(
    alloc: Global,
    arguments: &[String],
    given: &mut Given<'a, F, S, K, E>,
) -> Status
    ensures performs { spec.Performs (texts arguments.now)
        (⟦<Given<'a, F, S, K, E> as Shows>⟧.outside given.old given.new) result }
    ensures files { F.contents given.new.files.now ≡ F.contents given.old.files.now }
    ensures same { ⟦<Given<'a, F, S, K, E> as Shows>⟧.names given.new
        ≡ ⟦<Given<'a, F, S, K, E> as Shows>⟧.names given.old }
{
    match parse(arguments) {
        Some(Command::Call { image }) => call(alloc, image, given),
        Some(Command::Asm) => asm(alloc, given),
        Some(Command::Dis) => dis(alloc, given),
        None => finish(given.errs, Err(Refusal::Own(NoForm))),
    }
}

/// Does the command that the arguments are, and answers how it ended.
///
/// - `call IMAGE`: the image of the file IMAGE runs with the source's bytes as one packet, and the
///   line `END STEPS PACKETS CONSOLE` of its run is written.
/// - `asm`: the source is assembler text, whose ELF file is written.
/// - `dis`: the source is an ELF file; a line for each word of its executable segments is written.
///
/// Each refusal writes its line to `errs`. What files, source and sinks hold is promised where
/// they tell it.
pub fn run_plain<F: Files, S: Source, K: Sink, E: Sink>(
    alloc: Global,
    arguments: &[String],
    files: &mut F,
    source: &mut S,
    sink: &mut K,
    errs: &mut E,
) -> Plain
    // 1 comes exactly where the arguments are in no form, and says so.
    ensures no_form { (result ≡ Plain.Done 1) ↔ spec.HaveNoForm (texts arguments.now) }
    ensures usage { result ≡ Plain.Done 1 → Reports spec.no_form_line
        (see E.contents E.faults errs.old errs.new) }

    // What each command writes, and why it is refused.
    ensures command { (command : spec.Command) → spec.IsCommand (texts arguments.now) command
        → spec.EndsSo result (spec.CommandEnds command (outside
        (see F.contents F.faults files.old files.new)
        (see S.remaining S.faults source.old source.new)
        (see K.contents K.faults sink.old sink.new)
        (see E.contents E.faults errs.old errs.new))) }

    // Files hold what they held. At 1 and 6 nothing of the source was read; but at 0 and 5
    // nothing was written.
    ensures files { F.contents files.new ≡ F.contents files.old }
    ensures source { (result ≡ Plain.Done 1) ⊎ (result ≡ Plain.Done 6)
        → S.remaining source.new ≡ S.remaining source.old }
    ensures sink { result ≢ Plain.Done 0 → result ≢ Plain.Done 5
        → K.contents sink.new ≡ K.contents sink.old }

    // A count of faults rises only where its status says so, and none falls.
    ensures source_count { result ≢ Plain.Done 4 → S.faults source.new ≡ S.faults source.old }
    ensures sink_count { result ≢ Plain.Done 5 → K.faults sink.new ≡ K.faults sink.old }
    ensures files_count { result ≢ Plain.Done 6 → F.faults files.new ≡ F.faults files.old }
    ensures monotone { (F.faults files.old ≤ F.faults files.new)
        × (S.faults source.old ≤ S.faults source.new)
        × (K.faults sink.old ≤ K.faults sink.new) × (E.faults errs.old ≤ E.faults errs.new) }
{
    let mut given = Given::over(files, source, sink, errs);
    let status = perform(alloc, arguments, &mut given);
    Plain::Done(status)
}
