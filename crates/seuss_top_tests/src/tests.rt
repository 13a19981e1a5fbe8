//! Whole commands over files, a source and sinks in memory: the lines that come out, and
//! each call that can fail.

mod programs;
mod vast;

use edge_files::MemFiles;
use edge_streams::{MemSink, MemSource};
use seuss_top::{Plain, Status, run_plain};
use std::alloc::{AllocError, Global};
use std::process::Abort;
use std::test::Fail;

/// The header of an ELF file, and that of its one segment, at 0x10000, which may be read,
/// written and executed; without the segment's sizes.
const HEADERS: &[u8] = b"\x7fELF\x02\x01\x01\0\0\0\0\0\0\0\0\0\
    \x02\0\xf3\0\x01\0\0\0\0\0\x01\0\0\0\0\0\x40\0\0\0\0\0\0\0\
    \0\0\0\0\0\0\0\0\0\0\0\0\x40\0\x38\0\x01\0\0\0\0\0\0\0\
    \x01\0\0\0\x07\0\0\0\x78\0\0\0\0\0\0\0\0\0\x01\0\0\0\0\0\0\0\x01\0\0\0\0\0";

/// Adds words to a file, each with its lowest byte first.
fn add_words(file: &mut Vec<u8>, words: &[u32]) -> Result<(), AllocError> {
    for word in words {
        file.extend_from_slice(&word.to_le_bytes())?;
    }
    Ok(())
}

/// An ELF file of one segment of these words, at 0x10000 with this size in memory.
fn image_file(alloc: Global, words: &[u32], memory: u32) -> Result<Vec<u8>, AllocError> {
    let mut file = HEADERS.to_vec(alloc)?;
    let file_bytes = words.len().min(1024) as u32 * 4;
    add_words(&mut file, &[file_bytes, 0, memory, 0, 1, 0])?;
    add_words(&mut file, words)?;
    Ok(file)
}

/// Takes a packet of up to 1,024 bytes, sends it back and halts with 0.
const ECHO: &[u32] = &[
    0x0010_0413,
    0x0104_1413,
    0x1004_0513,
    0x4000_0593,
    0x0070_0893,
    0x0000_0073,
    0x1004_0513,
    0x0060_0893,
    0x0000_0073,
    0x0000_0513,
    0x0080_0893,
    0x0000_0073,
];

/// The same with room for the longest packet: `srli a1, s0, 1` asks for 32,768 bytes, half of
/// the segment's address.
const ROOMY: &[u32] = &[
    0x0010_0413,
    0x0104_1413,
    0x1004_0513,
    0x0014_5593,
    0x0070_0893,
    0x0000_0073,
    0x1004_0513,
    0x0060_0893,
    0x0000_0073,
    0x0000_0513,
    0x0080_0893,
    0x0000_0073,
];

/// The arguments of the command.
const CALL: &[&str] = &["call", "echo.elf"];

/// Of files, source, sink and reports the call that fails, counted from 1; 0 is none.
type Failing = (u64, u64, u64, u64);

const NONE: Failing = (0, 0, 0, 0);

/// A command's status, what it wrote and what it reported.
type Outcome<'a> = (Status, &'a str, &'a str);

/// What a command runs over: the one file `echo.elf`, a source that hands out a byte a call,
/// and sinks that take four.
#[derive(Drop)]
struct World {
    files: MemFiles,
    source: MemSource,
    sink: MemSink,
    errs: MemSink,
}

/// The call that is to fail, or none.
fn plan(alloc: Global, fails: u64) -> Result<Vec<u64>, AllocError> {
    [fails].to_vec(alloc)
}

fn files(alloc: Global, file: &[u8], fails: u64) -> Result<MemFiles, AllocError> {
    let mut files = MemFiles::new(alloc, plan(alloc, fails)?);
    files.add("echo.elf", file.to_vec(alloc)?)?;
    Ok(files)
}

fn source(alloc: Global, packet: &[u8], fails: u64) -> Result<MemSource, AllocError> {
    let bytes = packet.to_vec(alloc)?;
    Ok(MemSource::in_pieces(bytes, 1, plan(alloc, fails)?))
}

fn sink(alloc: Global, fails: u64) -> Result<MemSink, AllocError> {
    Ok(MemSink::in_pieces(alloc, 4, plan(alloc, fails)?))
}

fn in_memory(
    alloc: Global,
    file: &[u8],
    packet: &[u8],
    (of_files, of_source, of_sink, of_errs): Failing,
) -> Result<World, AllocError> {
    Ok(World {
        files: files(alloc, file, of_files)?,
        source: source(alloc, packet, of_source)?,
        sink: sink(alloc, of_sink)?,
        errs: sink(alloc, of_errs)?,
    })
}

/// The arguments as the program has them.
fn texts(alloc: Global, arguments: &[&str]) -> Result<Vec<String>, AllocError> {
    let mut texts = Vec::new(alloc);
    for argument in arguments {
        texts.push(String::from_str(alloc, argument)?)?;
    }
    Ok(texts)
}

fn run(alloc: Global, arguments: &[&str], world: &mut World) -> Result<Status, AllocError> {
    let Plain::Done(status) = run_plain(
        alloc,
        &texts(alloc, arguments)?,
        &mut world.files,
        &mut world.source,
        &mut world.sink,
        &mut world.errs,
    );
    Ok(status)
}

/// Does a command over such a world. A call of files fails in status 6 alone, one of the source
/// in 4 alone, and in 0 the source is read to its end.
fn check<R: Abort + AllocGlobal>(
    rt: &R,
    arguments: &[&str],
    file: &[u8],
    packet: &[u8],
    failing: Failing,
    (status, written, said): Outcome<'_>,
) -> Result<(), AllocError> {
    let mut world = in_memory(rt.alloc(), file, packet, failing)?;
    let got = run(rt.alloc(), arguments, &mut world)?;
    assert_eq!(rt; got, status, "{arguments:?} {written}{said}");
    assert_eq!(rt; world.sink.as_slice(), written.as_bytes());
    assert_eq!(rt; world.errs.as_slice(), said.as_bytes());
    assert_eq!(rt; world.files.faults(), u64::from(status == 6));
    assert_eq!(rt; world.source.faults(), u64::from(status == 4));
    assert!(rt; status != 0 || world.source.left().is_empty());
    Ok(())
}

/// Programs, each with the size of its segment in memory and its packet, and their lines.
/// The words are worked out by hand from the RISC-V manuals.
const LINES: [(&[u32], u32, &[u8], &str); 22] = [
    (ECHO, 0x1000, &[1, 2], "halt:0 12 0102 -\n"),
    (ECHO, 0x1000, &[], "halt:0 12 - -\n"),
    (ECHO, 0x8000_0000, &[7], "halt:0 12 07 -\n"),
    // It rests after the packet was read.
    (
        &[
            0x0010_0413,
            0x0104_1413,
            0x1004_0513,
            0x4000_0593,
            0x0070_0893,
            0x0000_0073,
            0x0030_0893,
            0x0000_0073,
        ],
        0x1000,
        &[1, 2],
        "ok 8 none -\n",
    ),
    // Unknown hypercalls: 99, and those below, between and above the six.
    (
        &[0x0630_0893, 0x0000_0073],
        0x1000,
        &[1, 2],
        "fault:8:10004:63 1 none -\n",
    ),
    (
        &[0x0000_0893, 0x0000_0073],
        0x1000,
        &[1, 2],
        "fault:8:10004:0 1 none -\n",
    ),
    (
        &[0x0040_0893, 0x0000_0073],
        0x1000,
        &[1, 2],
        "fault:8:10004:4 1 none -\n",
    ),
    (
        &[0x0050_0893, 0x0000_0073],
        0x1000,
        &[1, 2],
        "fault:8:10004:5 1 none -\n",
    ),
    (
        &[0x0090_0893, 0x0000_0073],
        0x1000,
        &[1, 2],
        "fault:8:10004:9 1 none -\n",
    ),
    // An illegal word after two packets.
    (
        &[
            0x0010_0413,
            0x0104_1413,
            0x1004_0513,
            0x4000_0593,
            0x0070_0893,
            0x0000_0073,
            0x1004_0513,
            0x0060_0893,
            0x0000_0073,
            0x1004_0513,
            0x0000_0073,
        ],
        0x1000,
        &[1, 2],
        "fault:2:1002c:0 11 0102/0102 -\n",
    ),
    // Bytes for the console.
    (
        &[
            0x0000_0517,
            0x01c5_0513,
            0x0020_0593,
            0x0020_0893,
            0x0000_0073,
            0x0080_0893,
            0x0000_0073,
            0x0000_6968,
        ],
        0x1000,
        &[1, 2],
        "halt:0 7 none 6869\n",
    ),
    // The stack pointer starts at 2^38.
    (
        &[0x0001_0513, 0x0080_0893, 0x0000_0073],
        0x1000,
        &[1, 2],
        "halt:274877906944 3 none -\n",
    ),
    // The stack's lowest byte, 65,536 below, can be written and read.
    (
        &[
            0x0001_02b7,
            0x4051_02b3,
            0x0052_8023,
            0x0002_c503,
            0x0080_0893,
            0x0000_0073,
        ],
        0x1000,
        &[1, 2],
        "halt:0 6 none -\n",
    ),
    // The byte below it can't.
    (
        &[0x0001_02b7, 0x4051_02b3, 0xfea2_8fa3],
        0x1000,
        &[1, 2],
        "fault:15:10008:3ffffeffff 2 none -\n",
    ),
    // A console write of no bytes at address 5, which isn't readable, is done.
    (
        &[
            0x0050_0513,
            0x0020_0893,
            0x0000_0073,
            0x0080_0893,
            0x0000_0073,
        ],
        0x1000,
        &[1, 2],
        "halt:0 5 none -\n",
    ),
    // So are two net writes: each is a packet of no bytes.
    (
        &[
            0x0050_0513,
            0x0060_0893,
            0x0000_0073,
            0x0050_0513,
            0x0000_0073,
            0x0080_0893,
            0x0000_0073,
        ],
        0x1000,
        &[1, 2],
        "halt:0 7 -/- -\n",
    ),
    // A net read at address 0 is invalid, and done where the packet has no bytes.
    (
        &[
            0x4000_0593,
            0x0070_0893,
            0x0000_0073,
            0x0080_0893,
            0x0000_0073,
        ],
        0x1000,
        &[1, 2],
        "halt:2 5 none -\n",
    ),
    (
        &[
            0x4000_0593,
            0x0070_0893,
            0x0000_0073,
            0x0080_0893,
            0x0000_0073,
        ],
        0x1000,
        &[],
        "halt:0 5 none -\n",
    ),
    // The packet stays where it is invalid: the echo has it.
    (
        &[
            0x4000_0593,
            0x0070_0893,
            0x0000_0073,
            0x0010_0413,
            0x0104_1413,
            0x1004_0513,
            0x4000_0593,
            0x0070_0893,
            0x0000_0073,
            0x1004_0513,
            0x0060_0893,
            0x0000_0073,
            0x0000_0513,
            0x0080_0893,
            0x0000_0073,
        ],
        0x1000,
        &[1, 2],
        "halt:0 15 0102 -\n",
    ),
    // A code has 64 bits: 64, and all of them.
    (
        &[0x0400_0513, 0x0080_0893, 0x0000_0073],
        0x1000,
        &[1, 2],
        "halt:64 3 none -\n",
    ),
    (
        &[0xfff0_0513, 0x0080_0893, 0x0000_0073],
        0x1000,
        &[1, 2],
        "halt:18446744073709551615 3 none -\n",
    ),
    // The clock shows 0.
    (
        &[0x0010_0893, 0x0000_0073, 0x0080_0893, 0x0000_0073],
        0x1000,
        &[1, 2],
        "halt:0 4 none -\n",
    ),
];

#[test]
fn writes_the_line_of_a_run(rt: HostRuntime) -> Result<(), Fail> {
    for (words, memory, packet, line) in LINES {
        let file = image_file(rt.alloc(), words, memory)?;
        check(&rt, CALL, &file, packet, NONE, (0, line, ""))?;
    }
    Ok(())
}

/// How many bytes of the file are there, one that is wrong, and what is said of it.
const FAULTY: [(usize, usize, u8, &str); 12] = [
    (63, 0, 0x7f, "seuss: image Short\n"),
    (168, 0, 0x7e, "seuss: image Magic\n"),
    (168, 4, 1, "seuss: image Class\n"),
    (168, 5, 2, "seuss: image Order\n"),
    (168, 16, 3, "seuss: image FileKind\n"),
    (168, 18, 0x3e, "seuss: image Machine\n"),
    (168, 54, 57, "seuss: image HeaderSize\n"),
    (168, 56, 65, "seuss: image TooBig\n"),
    (168, 33, 1, "seuss: image ProgramHeader\n"),
    (168, 97, 1, "seuss: image SegmentRange\n"),
    (168, 82, 0, "seuss: image Address\n"),
    (168, 24, 2, "seuss: image Entry\n"),
];

/// What is wrong with the image is told before the source is read.
#[test]
fn refuses_what_is_no_image(rt: HostRuntime) -> Result<(), Fail> {
    for (length, at, byte, said) in FAULTY {
        let mut file = image_file(rt.alloc(), ECHO, 0x1000)?;
        file.truncate(length);
        assert!(rt; at < file.len());
        file[at] = byte;
        check(&rt, CALL, &file, &[1, 2], (0, 1, 0, 0), (2, "", said))?;
    }
    Ok(())
}

/// The arguments, the calls that fail, and what becomes of the packet 01 02.
const OUTCOMES: [(&[&str], Failing, Outcome<'static>); 32] = [
    (&[], (1, 1, 0, 0), (1, "", "seuss: words\n")),
    (&["call"], (1, 1, 0, 0), (1, "", "seuss: words\n")),
    (&["call", ""], (1, 1, 0, 0), (1, "", "seuss: words\n")),
    (&["call", "-x"], (1, 1, 0, 0), (1, "", "seuss: words\n")),
    (
        &["call", "echo.elf", "echo.elf"],
        (1, 1, 0, 0),
        (1, "", "seuss: words\n"),
    ),
    (&["asm", "echo.s"], (1, 1, 0, 0), (1, "", "seuss: words\n")),
    // No word is left out.
    (
        &["", "call", "echo.elf"],
        (1, 1, 0, 0),
        (1, "", "seuss: words\n"),
    ),
    (
        &["call", "", "echo.elf"],
        (1, 1, 0, 0),
        (1, "", "seuss: words\n"),
    ),
    (
        &["call", "echo.elf", ""],
        (1, 1, 0, 0),
        (1, "", "seuss: words\n"),
    ),
    (&["asm", ""], (1, 1, 0, 0), (1, "", "seuss: words\n")),
    (&["dis", ""], (1, 1, 0, 0), (1, "", "seuss: words\n")),
    (&["asm", "dis"], (1, 1, 0, 0), (1, "", "seuss: words\n")),
    (&["", "asm"], (1, 1, 0, 0), (1, "", "seuss: words\n")),
    (&["", "dis"], (1, 1, 0, 0), (1, "", "seuss: words\n")),
    (
        &["kall", "echo.elf"],
        (1, 1, 0, 0),
        (1, "", "seuss: words\n"),
    ),
    (&["call", "other.elf"], NONE, (6, "", "seuss: file fault\n")),
    (
        &["call", "other.elf"],
        (0, 1, 0, 0),
        (6, "", "seuss: file fault\n"),
    ),
    (CALL, (1, 1, 1, 0), (6, "", "seuss: file fault\n")),
    (CALL, (2, 0, 0, 1), (0, "halt:0 12 0102 -\n", "")),
    // The third read finds the end.
    (CALL, (0, 1, 1, 0), (4, "", "seuss: read fault\n")),
    (CALL, (0, 2, 1, 0), (4, "", "seuss: read fault\n")),
    (CALL, (0, 3, 1, 0), (4, "", "seuss: read fault\n")),
    (CALL, (0, 4, 0, 0), (0, "halt:0 12 0102 -\n", "")),
    (CALL, (0, 0, 1, 0), (5, "", "seuss: write fault\n")),
    (CALL, (0, 0, 2, 0), (5, "halt", "seuss: write fault\n")),
    (CALL, (0, 0, 3, 0), (5, "halt:0 1", "seuss: write fault\n")),
    (
        CALL,
        (0, 0, 4, 0),
        (5, "halt:0 12 01", "seuss: write fault\n"),
    ),
    (
        CALL,
        (0, 0, 5, 0),
        (5, "halt:0 12 0102 -", "seuss: write fault\n"),
    ),
    (CALL, (0, 0, 6, 0), (0, "halt:0 12 0102 -\n", "")),
    // A report that fails changes no status.
    (CALL, (0, 1, 0, 1), (4, "", "")),
    (CALL, (0, 0, 2, 2), (5, "halt", "seus")),
    (CALL, (1, 0, 0, 5), (6, "", "seuss: file faul")),
];

#[test]
fn each_call_that_fails_has_its_status(rt: HostRuntime) -> Result<(), Fail> {
    let file = image_file(rt.alloc(), ECHO, 0x1000)?;
    for (arguments, failing, outcome) in OUTCOMES {
        check(&rt, arguments, &file, &[1, 2], failing, outcome)?;
    }
    Ok(())
}

/// The longest packet comes back. Of a longer one the read of the one byte too many is the last:
/// a later one that would fail isn't made.
#[test]
fn takes_the_longest_packet(rt: HostRuntime) -> Result<(), Fail> {
    let file = image_file(rt.alloc(), ROOMY, 0x10000)?;
    let digits = "5a".repeat(rt.alloc(), 32_768)?;
    let line = format!(in rt.alloc(); "halt:0 12 {digits} -\n")?;
    assert_eq!(rt; line.len(), 65_549);
    for (size, failing, outcome) in [
        (32_768, NONE, (0, line.as_str(), "")),
        (32_769, (0, 32_769, 0, 0), (4, "", "seuss: read fault\n")),
        (32_769, (0, 32_770, 1, 0), (3, "", "seuss: size\n")),
    ] {
        let packet = vec![in rt.alloc(); 0x5a; size]?;
        check(&rt, CALL, &file, &packet, failing, outcome)?;
    }
    Ok(())
}

// ---- asm and dis

/// The text of `ECHO`.
const ECHO_TEXT: &str = ".segment 0x10000 rwx 4096\n\
    addi s0, x0, 1\nslli s0, s0, 16\naddi a0, s0, 256\naddi a1, x0, 1024\naddi a7, x0, 7\necall\n\
    addi a0, s0, 256\naddi a7, x0, 6\necall\naddi a0, x0, 0\naddi a7, x0, 8\necall\n";

/// Halts with 0.
const TINY: &[u32] = &[0x0000_0513, 0x0080_0893, 0x0000_0073];

const TINY_LINES: &str = "10000 00000513 addi x10, x0, 0\n10004 00800893 addi x17, x0, 8\n\
    10008 00000073 ecall\n";

/// What `asm` writes of a text, by the bytes that an image has by hand.
#[test]
fn assembles_a_text(rt: HostRuntime) -> Result<(), Fail> {
    let mut world = in_memory(rt.alloc(), &[], ECHO_TEXT.as_bytes(), NONE)?;
    let status = run(rt.alloc(), &["asm"], &mut world)?;
    assert_eq!(rt; status, 0);
    let file = image_file(rt.alloc(), ECHO, 0x1000)?;
    assert_eq!(rt; world.sink.as_slice(), file.as_slice());
    Ok(())
}

/// Texts that `asm` refuses, or the calls that fail, and what becomes of them.
const TEXTS: [(&[u8], Failing, Outcome<'static>); 12] = [
    (
        b".segment 0x10000 rx 4096\naddi a0, x0, 2048\n",
        NONE,
        (3, "", "seuss: line 2 OutOfRange\n"),
    ),
    (
        b".segment 0x10000 rx 4096\nfoo x1, x2, x3\n",
        NONE,
        (3, "", "seuss: line 2 UnknownName\n"),
    ),
    (
        b".segment 0x10000 rx 4096\njal x0, there\n",
        NONE,
        (3, "", "seuss: line 2 Undefined\n"),
    ),
    (
        b".segment 0x10000 rx 4096\naddi a0, x0, x0\n",
        NONE,
        (3, "", "seuss: line 2 BadNumber\n"),
    ),
    (
        b".segment 0x10000 rx 4096\nhere:\nhere:\n",
        NONE,
        (3, "", "seuss: line 3 TwiceDefined\n"),
    ),
    (
        b"\n\n\n\n\n\n\n\n\n\n\nfoo\nfoo\n",
        NONE,
        (3, "", "seuss: line 12 UnknownName\n"),
    ),
    (b"addi x1, x0, 1", NONE, (3, "", "seuss: line 1 BadShape\n")),
    (b"", NONE, (3, "", "seuss: line 1 BadShape\n")),
    // Bytes that are no text, behind a line that has another fault.
    (
        b"foo\n\xc3\xa9\n\xc3\n",
        NONE,
        (3, "", "seuss: line 3 BadShape\n"),
    ),
    (b"foo\n", (1, 2, 0, 0), (4, "", "seuss: read fault\n")),
    (
        b".segment 4096 x 4\necall",
        (0, 0, 1, 0),
        (5, "", "seuss: write fault\n"),
    ),
    (b"foo\n", (1, 0, 1, 2), (3, "", "seus")),
];

#[test]
fn refuses_a_text(rt: HostRuntime) -> Result<(), Fail> {
    for (text, failing, outcome) in TEXTS {
        check(&rt, &["asm"], &[], text, failing, outcome)?;
    }
    Ok(())
}

/// The arguments, how many bytes of the file are there, the calls that fail, and what becomes of
/// the listing of three words.
const LISTINGS: [(&[&str], usize, Failing, Outcome<'static>); 7] = [
    (&["dis"], 132, NONE, (0, TINY_LINES, "")),
    (
        &["dis"],
        132,
        (1, 0, 2, 0),
        (5, "1000", "seuss: write fault\n"),
    ),
    (&["dis"], 132, (0, 3, 0, 0), (4, "", "seuss: read fault\n")),
    (&["dis"], 132, (1, 0, 0, 1), (0, TINY_LINES, "")),
    (&["dis"], 63, NONE, (2, "", "seuss: image Short\n")),
    (&["dis"], 131, NONE, (2, "", "seuss: image SegmentRange\n")),
    (&["dis", "x"], 132, (0, 1, 0, 0), (1, "", "seuss: words\n")),
];

#[test]
fn lists_an_image(rt: HostRuntime) -> Result<(), Fail> {
    for (arguments, length, failing, outcome) in LISTINGS {
        let mut file = image_file(rt.alloc(), TINY, 0x1000)?;
        file.truncate(length);
        check(&rt, arguments, &[], &file, failing, outcome)?;
    }
    Ok(())
}

/// A word of each shape of line, as GNU's assembler has it of the text, and one that is none.
const SHAPES: &[u32] = &[
    0x0000_0073,
    0xffff_ffb7,
    0xffdf_f0ef,
    0xff83_3283,
    0x7ec6_bfa3,
    0x8004_0393,
    0x80f7_0063,
    0x02b5_24b3,
    0x41f8_d81b,
    0x0ff0_000f,
    0xffff_ffff,
];

const SHAPE_LINES: &str = "10000 00000073 ecall\n10004 ffffffb7 lui x31, 1048575\n\
    10008 ffdff0ef jal x1, -4\n1000c ff833283 ld x5, -8(x6)\n\
    10010 7ec6bfa3 sd x12, 2047(x13)\n10014 80040393 addi x7, x8, -2048\n\
    10018 80f70063 beq x14, x15, -4096\n1001c 02b524b3 mulhsu x9, x10, x11\n\
    10020 41f8d81b sraiw x16, x17, 31\n10024 0ff0000f fence x0, x0, 255\n\
    10028 ffffffff .word 0xffffffff\n";

#[test]
fn lists_each_shape(rt: HostRuntime) -> Result<(), Fail> {
    let file = image_file(rt.alloc(), SHAPES, 0x1000)?;
    check(&rt, &["dis"], &[], &file, NONE, (0, SHAPE_LINES, ""))?;
    Ok(())
}

/// The lines of a second segment, which has six of the file bytes that the first has: the header
/// that says so, which stands where the bytes of both begin.
const SHARED_LINES: &str = "10000 00000001 .word 0x00000001\n10004 00000005 .word 0x00000005\n\
    20000 00000001 .word 0x00000001\n20004 05 .byte 0x05\n20005 00 .byte 0x00\n";

/// A file of a segment of eight bytes at 0x10000, and a second one at this address.
fn two_segments(alloc: Global, second: u32) -> Result<Vec<u8>, AllocError> {
    let mut file = HEADERS.to_vec(alloc)?;
    if let Some(e_phnum) = file.get_mut(56) {
        *e_phnum = 2;
    }
    add_words(&mut file, &[8, 0, 8, 0, 1, 0])?;
    add_words(
        &mut file,
        &[1, 5, 0x78, 0, second, 0, 0, 0, 6, 0, 6, 0, 1, 0],
    )?;
    Ok(file)
}

#[test]
fn lists_bytes_that_two_segments_share(rt: HostRuntime) -> Result<(), Fail> {
    for (second, outcome) in [
        (0x20000, (0, SHARED_LINES, "")),
        (0x10007, (2, "", "seuss: image Overlap\n")),
    ] {
        let file = two_segments(rt.alloc(), second)?;
        check(&rt, &["dis"], &[], &file, NONE, outcome)?;
    }
    Ok(())
}

/// A listing that is longer than what is held back of it: whole, and where a write fails behind
/// the first 4,100 bytes.
#[test]
fn lists_a_long_image(rt: HostRuntime) -> Result<(), Fail> {
    let alloc = rt.alloc();
    let mut file = HEADERS.to_vec(alloc)?;
    add_words(&mut file, &[1024, 0, 1024, 0, 1, 0])?;
    let mut lines = String::new(alloc);
    let mut at = 0x10000_u32;
    for _ in 0..256 {
        add_words(&mut file, &[0x73])?;
        lines.push_str(format!(in alloc; "{at:x} 00000073 ecall\n")?.as_str())?;
        at = at.wrapping_add(4);
    }
    let whole = (0, lines.as_str(), "");
    check(&rt, &["dis"], &[], &file, NONE, whole)?;
    let front = lines.get(..4100).unwrap_or("");
    let cut = (5, front, "seuss: write fault\n");
    check(&rt, &["dis"], &[], &file, (0, 0, 1026, 0), cut)?;
    Ok(())
}

/// An image with so many bytes behind its own, in large pieces, listed: its status and lines.
fn longest_is_listed<R: Abort + AllocGlobal>(
    rt: &R,
    behind: usize,
    (status, written): (Status, &str),
) -> Result<(), AllocError> {
    let mut file = image_file(rt.alloc(), TINY, 0x1000)?;
    file.extend_from_slice(&vec![in rt.alloc(); 0; behind]?)?;
    let mut world = in_memory(rt.alloc(), &[], &[], NONE)?;
    world.source = MemSource::in_pieces(file, 1 << 20, plan(rt.alloc(), 0)?);
    assert_eq!(rt; run(rt.alloc(), &["dis"], &mut world)?, status);
    assert_eq!(rt; world.sink.as_slice(), written.as_bytes());
    Ok(())
}

/// The longest file is listed; a longer one isn't.
#[test]
fn lists_the_longest_image(rt: HostRuntime) -> Result<(), Fail> {
    longest_is_listed(&rt, 16_777_216 - 132, (0, TINY_LINES))?;
    longest_is_listed(&rt, 16_777_217 - 132, (3, ""))?;
    Ok(())
}

/// A source of so many bytes of a comment, in large pieces, assembled: what is said of it.
fn comment_is_refused<R: Abort + AllocGlobal>(
    rt: &R,
    size: usize,
    said: &str,
) -> Result<(), AllocError> {
    let mut world = in_memory(rt.alloc(), &[], &[], NONE)?;
    let bytes = vec![in rt.alloc(); b'#'; size]?;
    world.source = MemSource::in_pieces(bytes, 1 << 20, plan(rt.alloc(), 0)?);
    let status = run(rt.alloc(), &["asm"], &mut world)?;
    assert_eq!(rt; status, 3);
    assert_eq!(rt; world.errs.as_slice(), said.as_bytes());
    Ok(())
}

/// The longest source is read; a longer one isn't.
#[test]
fn reads_the_longest_text(rt: HostRuntime) -> Result<(), Fail> {
    comment_is_refused(&rt, 16_777_216, "seuss: line 1 BadShape\n")?;
    comment_is_refused(&rt, 16_777_217, "seuss: size\n")?;
    Ok(())
}
