//! `call IMAGE`: the image of a file runs once, with the source's bytes as one packet.

ghost use Rattle.std.specs.Prelude.{◌≡◌, ◌≢◌, ℕ, ◌%◌, ◌≤◌, List};
ghost use Rattle.std.specs.Prelude.{string_bytes, Some, Ok, Err, IfOk, IfErr, OnOk, IfSome};
ghost use Rattle.call_command.specs.Call as spec;
ghost use Rattle.command_parts.specs.Ending.{Keeps, Leaves};
ghost use Rattle.command_parts.specs.Outside.{outside, see, no_sink};
ghost use Rattle.command_parts.specs.Sources.{IsInput, IsRead, RefusesSource};
ghost use Rattle.edge_streams.specs.Faults.{Rises};
ghost use Rattle.elf64.specs.Elf.{elf};
ghost use Rattle.machine_model.specs.Hypercall.{packet_limit};

use crate::execution::execute;
use crate::reply::reply_line;
use command_parts::{
    Given, NoImage, Refusal, Shows, Status, finish, image_of, read_source, write_output,
};
use edge_files::{FileFault, Files};
use edge_streams::{Sink, Source};
use elf64::{ElfFault, Image, ImageFault};
use image_model::FILE_LIMIT;
use machine_model::{PACKET_LIMIT, Packet};
use std::alloc::Global;
use std::marker::Brand;
use std::sync::ledger::Blank;

/// Why `call` is refused: its own cause is a fault of the image.
type CallRefusal = Refusal<ImageFault>;

/// The image of the file of a name.
fn read_program<F: Files>(alloc: Global, files: &mut F, name: &str) -> Result<Image, CallRefusal>
    ensures image { IfOk result (λ image. (bytes : List ℕ) × (elf bytes ≡ Ok image)
        × IfSome (F.contents files.old) (λ file_of. file_of name.now ≡ Some bytes)) }
    ensures aligned { IfOk result (λ image. image.entry % 4 ≡ 0) }
    ensures refused { IfErr result (spec.RefusesProgram (F.contents files.old) name.now (Rises
        (F.faults files.old) (F.faults files.new))) }
    ensures kept { F.contents files.new ≡ F.contents files.old }
    ensures counted { result ≢ Err Refusal.File → F.faults files.new ≡ F.faults files.old }
    ensures monotone { F.faults files.old ≤ F.faults files.new }
{
    let bytes = match files.read_file(alloc, name, FILE_LIMIT) {
        Ok(bytes) => bytes,
        Err(FileFault::Failed) => return Err(Refusal::File),
        Err(FileFault::TooBig) => return Err(Refusal::Own(ImageFault {
            fault: ElfFault::TooBig,
        })),
        Err(FileFault::Memory) => return Err(Refusal::Memory),
    };
    match image_of(alloc, &bytes) {
        Ok(image) => Ok(image),
        Err(NoImage::Fault(fault)) => Err(Refusal::Own(fault)),
        Err(NoImage::Memory) => Err(Refusal::Memory),
    }
}

/// The source's bytes, as a packet.
fn read_packet<S: Source>(alloc: Global, source: &mut S) -> Result<Packet, CallRefusal>
    ensures packet { IfOk result (IsInput packet_limit
        (see S.remaining S.faults source.old source.new)) }
    ensures refused { IfErr result (RefusesSource packet_limit
        (see S.remaining S.faults source.old source.new)) }
    ensures counted { result ≢ Err Refusal.Read → S.faults source.new ≡ S.faults source.old }
    ensures monotone { S.faults source.old ≤ S.faults source.new }
{
    let bytes = read_source::<ImageFault, S>(alloc, source, PACKET_LIMIT)?;
    Packet::new(bytes).ok_or(Refusal::Size)
}

/// The line of the image's execution on the packet.
fn run_line(alloc: Global, image: &Image, packet: Packet) -> Result<String, CallRefusal>
    requires { image.now.entry % 4 ≡ 0 }
    ensures line { IfOk result (λ line. spec.IsRunLine image.now packet (string_bytes line)) }
    ensures refused { IfErr result (λ refusal. refusal ≡ Refusal.Memory) }
{
    let Ok(packets) = vec![in alloc; packet] else {
        return Err(Refusal::Memory);
    };
    let Ok(ended) = execute::<Brand>(alloc, image, &packets, Blank::new(1)) else {
        return Err(Refusal::Memory);
    };
    match reply_line(alloc, ended.stop, ended.number, &ended.ports) {
        Ok(line) => Ok(line),
        Err(_) => Err(Refusal::Memory),
    }
}

/// The line that answers the command. Nothing is written yet.
fn answer<F: Files, S: Source>(
    alloc: Global,
    name: &str,
    files: &mut F,
    source: &mut S,
) -> Result<String, CallRefusal>
    ensures line { IfOk result (λ line. spec.IsCallLine (F.contents files.old)
        (S.remaining source.old) name.now (string_bytes line)) }
    ensures read { OnOk result (IsRead (see S.remaining S.faults source.old source.new)) }
    ensures refused { IfErr result (spec.Refuses (outside
        (see F.contents F.faults files.old files.new)
        (see S.remaining S.faults source.old source.new) no_sink no_sink) name.now) }
    ensures untouched { spec.TellsNoImage (F.contents files.old) name.now
        → S.remaining source.new ≡ S.remaining source.old }
    ensures keeps { Keeps (outside (see F.contents F.faults files.old files.new)
        (see S.remaining S.faults source.old source.new) no_sink no_sink) result }
    ensures files { F.contents files.new ≡ F.contents files.old }
{
    let image = read_program(alloc, files, name)?;
    let packet = read_packet(alloc, source)?;
    run_line(alloc, &image, packet)
}

/// Runs the image of the file of a name on the source's bytes, and writes the line of its run.
fn perform<F: Files, S: Source, K: Sink>(
    alloc: Global,
    name: &str,
    files: &mut F,
    source: &mut S,
    sink: &mut K,
) -> Result<(), CallRefusal>
    ensures does { spec.CallDoes (outside (see F.contents F.faults files.old files.new)
        (see S.remaining S.faults source.old source.new)
        (see K.contents K.faults sink.old sink.new) no_sink) name.now result }
    ensures untouched { spec.TellsNoImage (F.contents files.old) name.now
        → S.remaining source.new ≡ S.remaining source.old }
    ensures keeps { Keeps (outside (see F.contents F.faults files.old files.new)
        (see S.remaining S.faults source.old source.new)
        (see K.contents K.faults sink.old sink.new) no_sink) result }
    ensures files { F.contents files.new ≡ F.contents files.old }
{
    let line = answer(alloc, name, files, source)?;
    write_output(sink, line.as_bytes())
}

/// Runs the image of the file of a name on the source's bytes, and writes the line of its run. A
/// refusal is reported. Files stay as they are.
///
/// It answers 0, or the status of the refusal: 2 where the file is no image, 3 where the source
/// is longer than a packet, 4 to 7 as all commands do.
pub fn call<'a, F: Files, S: Source, K: Sink, E: Sink>(
    alloc: Global,
    name: &str,
    given: &mut Given<'a, F, S, K, E>,
) -> Status
    ensures ends { spec.CallEnds (⟦<Given<'a, F, S, K, E> as Shows>⟧.outside given.old given.new)
        name.now result }
    ensures leaves { Leaves (⟦<Given<'a, F, S, K, E> as Shows>⟧.outside given.old given.new)
        result }
    ensures files { F.contents given.new.files.now ≡ F.contents given.old.files.now }
    ensures same { ⟦<Given<'a, F, S, K, E> as Shows>⟧.names given.new
        ≡ ⟦<Given<'a, F, S, K, E> as Shows>⟧.names given.old }
{
    let outcome = perform(alloc, name, given.files, given.source, given.sink);
    finish(given.errs, outcome)
}
