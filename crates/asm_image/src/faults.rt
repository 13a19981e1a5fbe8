//! The first fault of the lines of a text.

ghost use Rattle.std.specs.Prelude.{◌≡◌, map, option_map};
ghost use Rattle.asm_program.specs.Held.{piece_of, part_of, labels_of, entry_of};
ghost use Rattle.asm_program.specs.Held.{fault_of, reading_of};
ghost use Rattle.asm_image.specs.Misuse.{is_misused};
ghost use Rattle.asm_image.specs.Uses as model;

use crate::uses::{is_defined, is_far, is_lost};
use asm_lines::AsmKind;
use asm_program::{Entry, Labels, LineFault, Part, Piece, Reading};

/// What may be wrong with the label that a piece goes to.
#[derive(Clone, Copy)]
pub enum Misuse {
    /// The label is too far.
    Far,
    /// The label isn't defined.
    Lost,
}

/// The first fault of the lines: a label that is too far, where it is defined before the line that
/// is faulty in itself; that line; a label that isn't defined.
pub fn lines_fault(reading: &Reading) -> Option<LineFault>
    ensures { option_map fault_of result ≡ model.lines_fault (reading_of reading.now) }
{
    if let Some(line) = misused_line(Misuse::Far, &reading.labels, &reading.parts) {
        let kind = AsmKind::OutOfRange;
        return Some(LineFault { line, kind });
    }
    if let Some(fault) = reading.fault {
        return Some(fault);
    }
    match lost_line(reading) {
        Some(line) => {
            let kind = AsmKind::Undefined;
            Some(LineFault { line, kind })
        }
        None => None,
    }
}

/// The first line with a label that isn't defined.
fn lost_line(reading: &Reading) -> Option<u32>
    ensures { result ≡ model.lost_line (reading_of reading.now) }
{
    let used = misused_line(Misuse::Lost, &reading.labels, &reading.parts);
    let begun = lost_entry(&reading.labels, &reading.entry);
    earlier(used, begun)
}

/// The line of the entry, where its label isn't defined.
fn lost_entry(labels: &Labels, entry: &Option<Entry>) -> Option<u32>
    ensures { result ≡ model.lost_entry (labels_of labels.now) (option_map entry_of entry.now) }
{
    match entry {
        None => None,
        Some(entry) => {
            if is_defined(labels, entry.name) {
                None
            } else {
                Some(entry.line)
            }
        }
    }
}

/// The lower of two lines, if there is one.
fn earlier(one: Option<u32>, other: Option<u32>) -> Option<u32>
    ensures { result ≡ model.earlier one other }
{
    match (one, other) {
        (None, _) => other,
        (Some(line), None) => Some(line),
        (Some(line), Some(second)) => Some(line.min(second)),
    }
}

/// The first line of the segments that misuses a label.
fn misused_line(misuse: Misuse, labels: &Labels, parts: &[Part]) -> Option<u32>
    ensures { result ≡ model.first_line (is_misused misuse (labels_of labels.now))
        (model.pieces_of (map part_of parts.now)) }
{
    for part in parts {
        match misused_in(misuse, labels, part) {
            Some(line) => return Some(line),
            None => {}
        }
    }
    None
}

/// The first line of the segment that misuses a label.
fn misused_in(misuse: Misuse, labels: &Labels, part: &Part) -> Option<u32>
    ensures { result ≡ model.first_line (is_misused misuse (labels_of labels.now))
        (part_of part.now).pieces }
{
    for piece in &part.pieces {
        if is_misused(misuse, labels, part.at, piece) {
            return Some(piece.line);
        }
    }
    None
}

/// Whether a piece of the segment at the address misuses a label.
fn is_misused(misuse: Misuse, labels: &Labels, at: u64, piece: &Piece) -> bool
    ensures { result ≡ is_misused misuse (labels_of labels.now) (piece_of at piece.now) }
{
    match misuse {
        Misuse::Far => is_far(labels, at, piece),
        Misuse::Lost => is_lost(labels, piece),
    }
}
