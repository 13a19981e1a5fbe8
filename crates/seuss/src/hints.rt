//! What a person needs to know of a refusal, beside its line: each text of that stands here.

use crate::version::{SOURCES, VERSION};
use arrayvec::ArrayString;
use std::fmt::Write as _;
use std::io;
use std::io::{Error, Write};

/// What the program can be asked to do, and where more is said.
const USAGE: [&str; 17] = [
    "seuss runs a RISC-V program on a packet of bytes, and writes what it replied.",
    "",
    "  seuss call IMAGE <PACKET   run the program in the file IMAGE on standard input",
    "  seuss asm <TEXT >IMAGE     make a program of assembler text",
    "  seuss dis <IMAGE           list a program's instructions",
    "",
    "call writes one line: how the run ended, how many instructions it took, its reply in",
    "hexadecimal, and its console. A run that ended in fault: or budget is status 0 too.",
    "",
    "Statuses: 0 done, 1 wrong words, 2 no program, 3 wrong text or too long an input,",
    "4 input, 5 output, 6 file that can't be read, 7 out of memory.",
    "",
    "A file whose name begins with - is written ./-NAME. Programs are made by seuss-cc, from C,",
    "or by seuss asm.",
    "",
    "The manual is `man seuss`; in the sources, README.md and docs/seuss.1.",
    "",
];

/// How many bytes standard input may have, of `call` and of the others.
const PACKET_LIMIT: &str = "more than 32,768 bytes, the most that a packet may have";

const TEXT_LIMIT: &str = "more than 16,777,216 bytes, the most that is read";

/// What a fault of an image means, and what to do.
fn image_text(fault: &str) -> &'static str {
    match fault {
        "Short" => "this is no program: it has fewer bytes than an ELF file's header",
        "TooBig" => "it has more than 16,777,216 bytes, 64 program headers or 16 segments",
        "Magic" => "this is no ELF file; seuss-cc makes one from C, and seuss asm from text",
        "Class" => "this is no 64-bit program; compile it for rv64im, as seuss-cc does",
        "Order" => "its numbers are high byte first; compile it for rv64im, as seuss-cc does",
        "FileKind" =>
            "it is no whole program at fixed addresses; link it with seuss-cc, or -static -no-pie",
        "Machine" => "this program isn't for RISC-V; compile it for rv64im, as seuss-cc does",
        "HeaderSize" => "its program headers haven't their size of 56 bytes; make it anew",
        "ProgramHeader" => "it ends before its program headers do; make it anew",
        "SegmentRange" => "it ends before one of its segments does; make it anew",
        "Address" => "a segment begins below 0x1000 or ends above 0x3fc0000000; link it elsewhere",
        "Overlap" => "two of its segments share an address; mend the linker's script",
        "Entry" => "it doesn't begin at an instruction; it wants a label _start, or .entry",
        _ => "",
    }
}

/// What a kind of fault of assembler text means, and what may stand there.
fn text_text(kind: &str) -> &'static str {
    match kind {
        "UnknownName" => {
            "a word on it is no instruction, directive or register, or it has a tab; li, mv, ret \
             and the like are none, and the manual says what to write instead"
        }
        "BadShape" => {
            "its operands aren't those of its first word, it has a tab, or no .segment stands \
             above it"
        }
        "BadNumber" => "a number is decimal, or 0x and hexadecimal, with - in front if negative",
        "OutOfRange" => "a number or a jump is too far, or the segment is longer than its size",
        "TwiceDefined" => "an earlier line has this label, or this .entry",
        "Undefined" => "no line defines a label that it names; one is defined by NAME:",
        _ => "",
    }
}

/// The most bytes of a file's name that are shown.
const NAME_BYTES: usize = 4096;

/// What is said where memory ran out.
const MEMORY: &str = "the system gave no more memory; ulimit -v shows a limit";

/// A refusal, as it is known once its line is written.
#[derive(Clone, Copy)]
pub struct Refused<'a> {
    pub status: u8,
    /// The line, without its end.
    pub line: &'a str,
    /// The command, and its file where it has one. Both are empty where there is none.
    pub command: &'a str,
    pub file: &'a str,
    /// The system's error of the call that failed, where one did.
    pub error: Option<Error>,
    /// Whether what was to be an image is known to have other first bytes than an ELF file's.
    pub is_no_elf: bool,
}

impl<'a> Refused<'a> {
    /// A refusal with this status, of which nothing else is known.
    pub fn without_words(status: u8) -> Refused<'a> {
        Refused {
            status,
            line: "",
            command: "",
            file: "",
            error: None,
            is_no_elf: false,
        }
    }
}

/// Says what a person needs to know of a refusal.
pub fn explain<W: Write>(errs: &mut W, refused: &Refused<'_>) -> io::Result<()> {
    match refused.status {
        1 => write_usage(errs),
        2 => write_hint(errs, image_place(refused), image_hint(refused)),
        3 => explain_text(errs, refused),
        4 => write_reason(errs, "standard input", refused.error),
        5 => write_reason(errs, "standard output", refused.error),
        6 => write_reason(errs, refused.file, refused.error),
        7 => writeln!(errs, "{MEMORY}"),
        _ => Ok(()),
    }
}

/// The usage, and which program this is.
fn write_usage<W: Write>(errs: &mut W) -> io::Result<()> {
    for line in USAGE {
        writeln!(errs, "{line}")?;
    }
    writeln!(errs, "seuss {VERSION}, of the sources {SOURCES}")
}

/// Where the image that was refused came from.
fn image_place<'a>(refused: &Refused<'a>) -> &'a str {
    if refused.file.is_empty() {
        "standard input"
    } else {
        refused.file
    }
}

/// What the fault of the image means.
fn image_hint(refused: &Refused<'_>) -> &'static str {
    match refused.line.rsplit_once(' ') {
        // A number is looked at before the bytes that begin an ELF file.
        Some((_, "TooBig")) if refused.is_no_elf => image_text("Magic"),
        Some((_, fault)) => image_text(fault),
        None => "",
    }
}

/// What is wrong with the line of the text, or how much may be read.
fn explain_text<W: Write>(errs: &mut W, refused: &Refused<'_>) -> io::Result<()> {
    match (refused.line.rsplit_once(' '), refused.command) {
        (Some((_, "size")), "call") => write_hint(errs, "standard input", PACKET_LIMIT),
        (Some((_, "size")), _) => write_hint(errs, "standard input", TEXT_LIMIT),
        (Some((place, kind)), _) => {
            write_hint(errs, place.trim_start_matches("seuss: "), text_text(kind))
        }
        (None, _) => Ok(()),
    }
}

/// A line of where something is wrong, and what.
fn write_hint<W: Write>(errs: &mut W, place: &str, hint: &str) -> io::Result<()> {
    let shown = shown_place(place);
    writeln!(errs, "{shown}: {hint}")
}

/// The name of a file, or of what is read or written, as much of it as a name may have. A
/// character that would do something to a terminal stands as `?`.
fn shown_place(place: &str) -> ArrayString<NAME_BYTES> {
    let mut shown = ArrayString::new();
    for letter in place.chars() {
        let _ = shown.try_push(if letter.is_control() { '?' } else { letter });
    }
    shown
}

/// A line of where a call of the system failed, and the system's reason.
fn write_reason<W: Write>(errs: &mut W, place: &str, error: Option<Error>) -> io::Result<()> {
    let Some(error) = error else {
        return Ok(());
    };
    let mut text = ArrayString::<256>::new();
    let _ = write!(text, "{error}");
    write_hint(errs, place, without_number(text.as_str()))
}

/// The words of a system's error, without the number that stands behind them.
fn without_number(reason: &str) -> &str {
    match reason.rsplit_once(" (os error ") {
        Some((words, _number)) => words,
        None => reason,
    }
}
