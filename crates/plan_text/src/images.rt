//! The images of a plan.

ghost use Rattle.std.specs.Prelude.{◌≡◌, ◌≢◌, ◌+◌, ◌<◌, ◌≤◌, ℕ, List, length, nat_lt};
ghost use Rattle.std.specs.Prelude.{if◌then◌else◌, Option, Some, None, Ok, Err, ◌%◌, true};
ghost use Rattle.std.specs.Prelude.{IfErr, IfOk, IfSome, OnOk, false};
ghost use Rattle.std.specs.List.{sum_by};
ghost use Rattle.edge_streams.specs.Faults.{Rises};
ghost use Rattle.elf64.specs.Elf.{elf};
ghost use Rattle.image_model.specs.StartOf as model;
ghost use Rattle.image_model.specs.declared.image.Image.{Image};
ghost use Rattle.plan_text.specs.Images as spec;
ghost use Rattle.plan_text.specs.PlanText.{IsOfImages};

use edge_files::{FileFault, Files};
use elf64::{ElfFault, Image, ImageFault, Segment, entry_is_sound, read_image};
use image_model::FILE_LIMIT;
use image_start::start_of;
use plan_model::{Start, Text};
use plan_tables::PlanFault;
use std::alloc::Global;

/// The most bytes of all files of a plan, and the most that they load.
const TOTAL_LIMIT: u64 = 67_108_864;

/// How many bytes the files so far have together, and how many of them are loaded.
#[derive(Clone, Copy)]
pub struct Totals {
    pub file_bytes: u64,
    pub loaded_bytes: u64,
}

/// What the images of the files of these names start with, with a stack of so many bytes; the
/// first fault of a file or an image.
pub fn starts<F: Files>(
    alloc: Global,
    files: &mut F,
    names: &[Text],
    stack: u64,
) -> Result<Vec<Start>, PlanFault>
    ensures starts { IfOk result (λ starts. IfSome (F.contents files.old) (λ file_of.
        spec.starts_of file_of stack names.now spec.no_totals ≡ Ok starts.items)) }
    ensures count { IfOk result (λ starts. length starts.items ≡ length names.now) }
    ensures refused { IfErr result (λ fault. fault ≢ PlanFault.Memory → fault ≢ PlanFault.File →
        IfSome (F.contents files.old) (λ file_of.
        spec.starts_of file_of stack names.now spec.no_totals ≡ Err fault)) }
    ensures kind { IfErr result (λ fault. fault ≢ PlanFault.Memory → IsOfImages fault) }
    ensures failed { result ≡ Err PlanFault.File → Rises (F.faults files.old) (F.faults files.new) }
    ensures place { result ≡ Err PlanFault.File → IfSome (F.contents files.old) (λ file_of.
        spec.StopsAtOne file_of stack names.now) }
    ensures kept { F.contents files.new ≡ F.contents files.old }
    ensures counted { result ≢ Err PlanFault.File → F.faults files.new ≡ F.faults files.old }
    ensures monotone { F.faults files.old ≤ F.faults files.new }
{
    let mut totals = Totals {
        file_bytes: 0,
        loaded_bytes: 0,
    };
    let mut starts = Vec::with_capacity(alloc, names.len())?;
    'names: for name in names {
        starts.push(start(alloc, files, name.as_str(), stack, &mut totals)?)?;
    }
    Ok(starts)
}

/// What the image of the file of a name starts with. It joins the totals.
fn start<F: Files>(
    alloc: Global,
    files: &mut F,
    name: &str,
    stack: u64,
    totals: &mut Totals,
) -> Result<Start, PlanFault>
    requires { spec.are_too_big totals.old ≡ false }
    ensures start { IfOk result (λ start. IfSome (F.contents files.old) (λ file_of.
        (image : Image) × (spec.file_image totals.old (file_of name.now) ≡ Ok (image, totals.new))
        × (start ≡ model.start_of image stack))) }
    ensures small { OnOk result (spec.are_too_big totals.new ≡ false) }
    ensures refused { IfErr result (λ fault. fault ≢ PlanFault.Memory → fault ≢ PlanFault.File →
        IfSome (F.contents files.old) (λ file_of.
        spec.file_image totals.old (file_of name.now) ≡ Err fault)) }
    ensures kind { IfErr result (λ fault. fault ≢ PlanFault.Memory → IsOfImages fault) }
    ensures failed { result ≡ Err PlanFault.File → Rises (F.faults files.old) (F.faults files.new) }
    ensures kept { F.contents files.new ≡ F.contents files.old }
    ensures counted { result ≢ Err PlanFault.File → F.faults files.new ≡ F.faults files.old }
    ensures monotone { F.faults files.old ≤ F.faults files.new }
{
    let bytes = match files.read_file(alloc, name, FILE_LIMIT) {
        Ok(bytes) => bytes,
        Err(FileFault::Failed) => return Err(PlanFault::File),
        Err(FileFault::TooBig) => return Err(PlanFault::Image(ElfFault::TooBig)),
        Err(FileFault::Memory) => return Err(PlanFault::Memory),
    };
    let image = image(alloc, &bytes, totals)?;
    Ok(start_of(alloc, &image, stack)?)
}

/// The image of a file's bytes, which joins the totals; `Image`.
fn image(alloc: Global, bytes: &[u8], totals: &mut Totals) -> Result<Image, PlanFault>
    requires { spec.are_too_big totals.old ≡ false }
    ensures image { IfOk result (λ image.
        spec.image_within totals.old bytes.now (elf bytes.now) ≡ Ok (image, totals.new)) }
    ensures small { OnOk result (spec.are_too_big totals.new ≡ false) }
    ensures aligned { IfOk result (λ image. image.entry % 4 ≡ 0) }
    ensures refused { IfErr result (λ fault. fault ≢ PlanFault.Memory →
        spec.image_within totals.old bytes.now (elf bytes.now) ≡ Err fault) }
    ensures kind { IfErr result (λ fault. fault ≢ PlanFault.Memory → IsOfImages fault) }
    ensures no_file { result ≢ Err PlanFault.File }
{
    entry_is_sound();
    match read_image(alloc, bytes) {
        Ok(image) => {
            join(totals, bytes.len() as u64, image.segments.as_slice())?;
            Ok(image)
        }
        Err(fault) => match ImageFault::of(fault) {
            Some(fault) => Err(PlanFault::Image(fault.fault)),
            None => Err(PlanFault::Memory),
        },
    }
}

/// Adds a file's bytes and those of its segments to the totals; `Image` where they are too big.
fn join(totals: &mut Totals, file_bytes: u64, segments: &[Segment]) -> Result<(), PlanFault>
    requires { spec.are_too_big totals.old ≡ false }
    ensures added { OnOk result (totals.new ≡ spec.totals_more totals.old file_bytes
        (sum_by (λ s. length s.bytes) segments.now)) }
    ensures small { OnOk result (spec.are_too_big totals.new ≡ false) }
    ensures refused { IfErr result (λ fault. (fault ≡ PlanFault.Image ElfFault.TooBig)
        × (spec.are_too_big (spec.totals_more totals.old file_bytes
        (sum_by (λ s. length s.bytes) segments.now)) ≡ true)) }
{
    let total = totals.file_bytes.saturating_add(file_bytes);
    if total > TOTAL_LIMIT {
        return Err(PlanFault::Image(ElfFault::TooBig));
    }
    match loaded_within(totals.loaded_bytes, segments) {
        None => Err(PlanFault::Image(ElfFault::TooBig)),
        Some(loaded_bytes) => {
            *totals = Totals {
                file_bytes: total,
                loaded_bytes,
            };
            Ok(())
        }
    }
}

/// So many loaded bytes with those of the segments, or none where they are too many.
fn loaded_within(before: u64, segments: &[Segment]) -> Option<u64>
    requires { before ≤ 67108864 }
    ensures { result ≡ spec.total_within
        (before + sum_by (λ s. length s.bytes) segments.now) }
{
    match segments {
        [] => Some(before),
        [first, rest @ ..] => {
            let total = before.saturating_add(first.bytes.as_slice().len() as u64);
            if total > TOTAL_LIMIT {
                None
            } else {
                loaded_within(total, rest)
            }
        }
    }
}
