//! The listing of a file: the lines of its image's executable segments.

ghost use Rattle.std.specs.Prelude.{◌≡◌, ◌≤◌, false, length, OnOk, OnErr};
ghost use Rattle.std.specs.List.{AllByRecursion, list_any};
ghost use Rattle.asm_commands.specs.Listing as model;
ghost use Rattle.asm_commands.specs.Loads.{IsSoundLoad, is_listed, load_lines};
ghost use Rattle.edge_streams.specs.Content.{Adds};
ghost use Rattle.edge_streams.specs.Faults.{Rises};
ghost use Rattle.elf64.specs.Laws.{IsSoundSegment};
ghost use Rattle.elf64.specs.Segments.{has_wrong_range, segments_of};
ghost use Rattle.output_buffer.specs.Sent.{IsCut, Sends, way};

use crate::lines::push_bytes;
use edge_streams::{Failed, Sink};
use elf64::{ProgramHeader, file_bytes};
use output_buffer::{Buffer, flush};

/// Whether the lines of a PT_LOAD are listed: it is a segment, and may be executed.
fn is_listed(load: &ProgramHeader) -> bool
    ensures { result ≡ is_listed load.now }
{
    load.has_memory() && load.p_flags % 2 == 1
}

/// Sends the lines of a PT_LOAD's file bytes, where they are listed.
fn push_load<K: Sink>(sink: &mut K, buffer: &mut Buffer, file: &[u8], load: &ProgramHeader)
    requires range { has_wrong_range (length file.now) load.now ≡ false }
    requires sound { IsSoundLoad file.now load.now }
    ensures { Sends (load_lines file.now load.now) (way K.contents K.faults sink.old buffer.old)
        (way K.contents K.faults sink.new buffer.new) }
{
    if is_listed(load) {
        push_bytes(sink, buffer, load.p_vaddr, file_bytes(file, load));
    }
}

/// Sends the lines of PT_LOADs, in their order.
fn push_loads<K: Sink>(sink: &mut K, buffer: &mut Buffer, file: &[u8], loads: &[ProgramHeader])
    requires ranges { list_any (has_wrong_range (length file.now)) loads.now ≡ false }
    requires sound { AllByRecursion IsSoundSegment (segments_of file.now loads.now) }
    ensures { Sends (model.listing (segments_of file.now loads.now))
        (way K.contents K.faults sink.old buffer.old)
        (way K.contents K.faults sink.new buffer.new) }
{
    match loads {
        [first, rest @ ..] => {
            push_load(sink, buffer, file, first);
            push_loads(sink, buffer, file, rest);
        }
        [] => {}
    }
}

/// Writes the lines of a file's executable segments, in their order: of each its file bytes, as
/// words with the lowest byte first, and a rest as bytes. The bytes are read in their place in the
/// file, and the lines go out as they are made, so that no memory is taken.
///
/// The error is that a write failed. A part of the lines was then written, from the front.
pub fn write_listing<K: Sink>(
    sink: &mut K,
    file: &[u8],
    loads: &[ProgramHeader],
) -> Result<(), Failed>
    requires ranges { list_any (has_wrong_range (length file.now)) loads.now ≡ false }
    requires sound { AllByRecursion IsSoundSegment (segments_of file.now loads.now) }
    ensures written { OnOk result (Adds (model.listing (segments_of file.now loads.now))
        (K.contents sink.old) (K.contents sink.new)) }
    ensures cut { OnErr result (IsCut (model.listing (segments_of file.now loads.now))
        (K.contents sink.old) (K.contents sink.new)) }
    ensures failed { OnErr result (Rises (K.faults sink.old) (K.faults sink.new)) }
    ensures counted { OnOk result (K.faults sink.new ≡ K.faults sink.old) }
    ensures never_falls { K.faults sink.old ≤ K.faults sink.new }
{
    let mut buffer = Buffer::new();
    push_loads(sink, &mut buffer, file, loads);
    flush(sink, &mut buffer)
}
