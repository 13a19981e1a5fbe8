//! Files from outside: what is accepted, and what is one field away from it. Expected values are
//! by hand, from the table of faults.

use elf64::{ElfFault, Image, ImageFault, Segment, read_image};
use std::alloc::{AllocError, Global};
use std::test::Fail;

/// An offset, how many bytes to put there, and the number whose low bytes they are.
type Edit = (usize, u8, u64);

/// No edit.
const NONE: Edit = (0, 0, 0);

// Where the fields of the file header stand.
const E_TYPE: usize = 16;

const E_MACHINE: usize = 18;

const E_ENTRY: usize = 24;

const E_PHOFF: usize = 32;

const E_FLAGS: usize = 48;

const E_PHENTSIZE: usize = 54;

const E_PHNUM: usize = 56;

// Where the program headers stand, and how far into them their fields.
const NOTE: usize = 64;

const CODE: usize = 120;

const ZEROS: usize = 176;

const STACK: usize = 232;

const P_FLAGS: usize = 4;

const P_OFFSET: usize = 8;

const P_VADDR: usize = 16;

const P_FILESZ: usize = 32;

const P_MEMSZ: usize = 40;

/// How many bytes the file has.
const SIZE: usize = 296;

/// A file with four program headers: one of type 4, code of two instructions, zeros without a
/// file byte, and one of a type that is the system's own.
const FIELDS: [Edit; 28] = [
    (0, 4, 0x464c_457f),
    (4, 1, 2),
    (5, 1, 1),
    (6, 1, 1),
    (E_TYPE, 2, 2),
    (E_MACHINE, 2, 243),
    (E_ENTRY, 8, 0x1_0000),
    (E_PHOFF, 8, 64),
    (E_FLAGS, 4, 5),
    (E_PHENTSIZE, 2, 56),
    (E_PHNUM, 2, 4),
    (NOTE, 4, 4),
    (NOTE + P_OFFSET, 8, 0x1000),
    (NOTE + P_FILESZ, 8, 0x1000),
    (CODE, 4, 1),
    (CODE + P_FLAGS, 4, 5),
    (CODE + P_OFFSET, 8, 288),
    (CODE + P_VADDR, 8, 0x1_0000),
    (CODE + P_FILESZ, 8, 8),
    (CODE + P_MEMSZ, 8, 0x1000),
    (ZEROS, 4, 1),
    (ZEROS + P_FLAGS, 4, 6),
    (ZEROS + P_VADDR, 8, 0x2_0000),
    (ZEROS + P_MEMSZ, 8, 0x100),
    (STACK, 4, 0x6474_e551),
    (STACK + P_FLAGS, 4, 6),
    (288, 4, 0x13),
    (292, 4, 0x73),
];

/// Edits of the file, and its first fault then.
const FAULTS: [([Edit; 2], ElfFault); 41] = [
    ([(E_PHNUM, 2, 65), NONE], ElfFault::TooBig),
    ([(E_PHNUM, 2, 64), NONE], ElfFault::ProgramHeader),
    ([(0, 1, 0x7e), NONE], ElfFault::Magic),
    ([(3, 1, 0x47), NONE], ElfFault::Magic),
    ([(4, 1, 1), NONE], ElfFault::Class),
    ([(5, 1, 2), NONE], ElfFault::Order),
    ([(E_TYPE, 2, 3), NONE], ElfFault::FileKind),
    ([(E_MACHINE, 2, 62), NONE], ElfFault::Machine),
    ([(E_PHENTSIZE, 2, 55), NONE], ElfFault::HeaderSize),
    ([(E_PHOFF, 8, 73), NONE], ElfFault::ProgramHeader),
    ([(E_PHOFF, 8, u64::MAX - 7), NONE], ElfFault::ProgramHeader),
    // The code's file bytes: one too many, an end that wraps, and more than memory.
    ([(CODE + P_OFFSET, 8, 289), NONE], ElfFault::SegmentRange),
    (
        [(CODE + P_OFFSET, 8, u64::MAX), NONE],
        ElfFault::SegmentRange,
    ),
    ([(CODE + P_MEMSZ, 8, 7), NONE], ElfFault::SegmentRange),
    ([(ZEROS + P_FILESZ, 8, 297), NONE], ElfFault::SegmentRange),
    // Memory below the lowest address, above the highest, and with an end that wraps.
    ([(ZEROS + P_VADDR, 8, 0xfff), NONE], ElfFault::Address),
    (
        [(ZEROS + P_VADDR, 8, 0x3f_bfff_ff01), NONE],
        ElfFault::Address,
    ),
    ([(ZEROS + P_MEMSZ, 8, u64::MAX), NONE], ElfFault::Address),
    // One byte is shared, or the one segment lies in the other.
    ([(ZEROS + P_VADDR, 8, 0x1_0fff), NONE], ElfFault::Overlap),
    ([(ZEROS + P_VADDR, 8, 0xff01), NONE], ElfFault::Overlap),
    ([(ZEROS + P_VADDR, 8, 0x1_0100), NONE], ElfFault::Overlap),
    // Between two instructions, before the code, behind it, and on zeros.
    ([(E_ENTRY, 8, 0x1_0002), NONE], ElfFault::Entry),
    ([(E_ENTRY, 8, 0xfffc), NONE], ElfFault::Entry),
    ([(E_ENTRY, 8, 0x1_1000), NONE], ElfFault::Entry),
    ([(E_ENTRY, 8, 0x2_0000), NONE], ElfFault::Entry),
    ([(E_ENTRY, 8, u64::MAX - 3), NONE], ElfFault::Entry),
    ([(CODE + P_FLAGS, 4, 6), NONE], ElfFault::Entry),
    ([(CODE, 4, 2), NONE], ElfFault::Entry),
    // No program header, at an offset that is in no file.
    ([(E_PHNUM, 2, 0), (E_PHOFF, 8, u64::MAX)], ElfFault::Entry),
    ([(E_PHNUM, 2, 0), (E_PHENTSIZE, 2, 0)], ElfFault::Entry),
    // Of two faults the earlier.
    ([(E_PHNUM, 2, 65), (0, 1, 0)], ElfFault::TooBig),
    ([(0, 1, 0), (4, 1, 1)], ElfFault::Magic),
    ([(4, 1, 1), (5, 1, 2)], ElfFault::Class),
    ([(5, 1, 2), (E_TYPE, 2, 3)], ElfFault::Order),
    ([(E_TYPE, 2, 3), (E_MACHINE, 2, 62)], ElfFault::FileKind),
    (
        [(E_MACHINE, 2, 62), (E_PHENTSIZE, 2, 55)],
        ElfFault::Machine,
    ),
    (
        [(E_PHENTSIZE, 2, 55), (E_PHOFF, 8, 73)],
        ElfFault::HeaderSize,
    ),
    ([(E_PHOFF, 8, 73), (E_ENTRY, 8, 1)], ElfFault::ProgramHeader),
    (
        [(ZEROS + P_VADDR, 8, 0), (CODE + P_MEMSZ, 8, 7)],
        ElfFault::SegmentRange,
    ),
    (
        [(ZEROS + P_VADDR, 8, 0xfff), (ZEROS + P_MEMSZ, 8, 0x1_0000)],
        ElfFault::Address,
    ),
    (
        [(ZEROS + P_VADDR, 8, 0x1_0fff), (E_ENTRY, 8, 2)],
        ElfFault::Overlap,
    ),
];

/// A segment's address, flags, size and number of file bytes.
type Seen = (u64, u32, u64, usize);

/// The segment of the code.
const CODE_SEEN: Seen = (0x1_0000, 5, 0x1000, 8);

/// The segment of the zeros.
const ZEROS_SEEN: Seen = (0x2_0000, 6, 0x100, 0);

/// Edits of the file, and the entry and segments that are read then.
const ACCEPTED: [([Edit; 4], u64, [Option<Seen>; 2]); 10] = [
    ([NONE; 4], 0x1_0000, [Some(CODE_SEEN), Some(ZEROS_SEEN)]),
    // No file byte, at an offset that is in no file.
    (
        [(ZEROS + P_OFFSET, 8, u64::MAX), NONE, NONE, NONE],
        0x1_0000,
        [Some(CODE_SEEN), Some(ZEROS_SEEN)],
    ),
    // No memory: no segment, wherever it lies.
    (
        [(ZEROS + P_MEMSZ, 8, 0), (ZEROS + P_VADDR, 8, 0), NONE, NONE],
        0x1_0000,
        [Some(CODE_SEEN), None],
    ),
    // The zeros begin where the code ends.
    (
        [(ZEROS + P_VADDR, 8, 0x1_1000), NONE, NONE, NONE],
        0x1_0000,
        [Some(CODE_SEEN), Some((0x1_1000, 6, 0x100, 0))],
    ),
    // Flags above 7.
    (
        [(CODE + P_FLAGS, 4, 0xffff_fff5), NONE, NONE, NONE],
        0x1_0000,
        [Some(CODE_SEEN), Some(ZEROS_SEEN)],
    ),
    // The lowest and the highest address.
    (
        [(ZEROS + P_VADDR, 8, 0x1000), NONE, NONE, NONE],
        0x1_0000,
        [Some(CODE_SEEN), Some((0x1000, 6, 0x100, 0))],
    ),
    (
        [(ZEROS + P_VADDR, 8, 0x3f_bfff_ff00), NONE, NONE, NONE],
        0x1_0000,
        [Some(CODE_SEEN), Some((0x3f_bfff_ff00, 6, 0x100, 0))],
    ),
    // Memory up to the highest address, most of all addresses.
    (
        [
            (ZEROS + P_VADDR, 8, 0x1000_0000),
            (ZEROS + P_MEMSZ, 8, 0x3f_b000_0000),
            NONE,
            NONE,
        ],
        0x1_0000,
        [Some(CODE_SEEN), Some((0x1000_0000, 6, 0x3f_b000_0000, 0))],
    ),
    // The last instruction of the code's page, behind its last byte.
    (
        [(E_ENTRY, 8, 0x1_0ffc), (CODE + P_MEMSZ, 8, 8), NONE, NONE],
        0x1_0ffc,
        [Some((0x1_0000, 5, 8, 8)), Some(ZEROS_SEEN)],
    ),
    // An entry in code that is only read, on a page that other bytes make executable.
    (
        [
            (CODE + P_FLAGS, 4, 4),
            (CODE + P_MEMSZ, 8, 0x800),
            (ZEROS + P_VADDR, 8, 0x1_0800),
            (ZEROS + P_FLAGS, 4, 1),
        ],
        0x1_0000,
        [Some((0x1_0000, 4, 0x800, 8)), Some((0x1_0800, 1, 0x100, 0))],
    ),
];

/// Puts the low bytes of the edit's number at its offset.
fn put(file: &mut [u8], (at, size, number): Edit) {
    let bytes = number.to_le_bytes();
    for k in 0..size.min(8) as usize {
        if at < file.len() && k < file.len() - at {
            file[at + k] = bytes[k];
        }
    }
}

/// The file.
fn file() -> [u8; SIZE] {
    let mut file = [0; SIZE];
    for edit in FIELDS {
        put(&mut file, edit);
    }
    file
}

/// The first fault of the file, and none of an image.
fn fault(alloc: Global, file: &[u8]) -> Option<ElfFault> {
    read_image(alloc, file).err()
}

/// The segment, as the tests see it.
fn seen(segment: &Segment) -> Seen {
    let bytes = segment.bytes.as_slice().len();
    (segment.at, segment.flags, segment.size, bytes)
}

#[test]
fn refuses_what_is_a_field_away(rt: HostRuntime) {
    for (edits, expected) in FAULTS {
        let mut file = file();
        for edit in edits {
            put(&mut file, edit);
        }
        assert_eq!(rt; fault(rt.alloc(), &file), Some(expected), "at {edits:?}");
    }
}

#[test]
fn reads_what_has_no_fault(rt: HostRuntime) -> Result<(), Fail> {
    for (edits, entry, expected) in ACCEPTED {
        let mut file = file();
        for edit in edits {
            put(&mut file, edit);
        }
        let image = read_image(rt.alloc(), &file)?;
        let segments = image.segments.as_slice();
        assert_eq!(rt; image.entry, entry, "at {edits:?}");
        assert_eq!(rt; segments.first().map(seen), expected[0], "at {edits:?}");
        assert_eq!(rt; segments.get(1).map(seen), expected[1], "at {edits:?}");
        assert!(rt; segments.len() <= 2, "at {edits:?}");
    }
    Ok(())
}

#[test]
fn copies_the_bytes_of_the_code(rt: HostRuntime) -> Result<(), Fail> {
    let file = file();
    let segments = read_image(rt.alloc(), &file)?.segments.into_vec();
    assert_eq!(rt; segments.len(), 2);
    assert_eq!(rt; segments[0].bytes.as_slice(), &file[288..]);
    Ok(())
}

#[test]
fn refuses_each_part_of_the_file(rt: HostRuntime) {
    let file = file();
    for size in 0..SIZE {
        let expected = match size {
            0..64 => ElfFault::Short,
            64..288 => ElfFault::ProgramHeader,
            _ => ElfFault::SegmentRange,
        };
        assert_eq!(rt;
            fault(rt.alloc(), &file[..size]),
            Some(expected),
            "at {size}"
        );
    }
}

/// The file's file header with so many program headers of type 1, all else 0.
fn with_loads(count: u16) -> [u8; 1016] {
    let mut long = [0; 1016];
    for edit in FIELDS {
        if edit.0 < NOTE {
            put(&mut long, edit);
        }
    }
    put(&mut long, (E_PHNUM, 2, count.into()));
    for k in 0..count as usize {
        put(&mut long, (64 + 56 * k, 4, 1));
    }
    long
}

#[test]
fn counts_what_is_loaded(rt: HostRuntime) {
    assert_eq!(rt; fault(rt.alloc(), &with_loads(16)), Some(ElfFault::Entry));
    assert_eq!(rt; fault(rt.alloc(), &with_loads(17)), Some(ElfFault::TooBig));
}

/// The file, followed by zeros up to a length.
fn long_file(alloc: Global, size: usize) -> Result<Vec<u8>, AllocError> {
    let mut long = vec![in alloc; 0; size]?;
    for edit in FIELDS {
        put(&mut long, edit);
    }
    Ok(long)
}

#[test]
fn counts_bytes_of_the_file(rt: HostRuntime) -> Result<(), Fail> {
    let longest = long_file(rt.alloc(), 0x100_0000)?;
    assert_eq!(rt; fault(rt.alloc(), &longest), None);
    let longer = long_file(rt.alloc(), 0x100_0001)?;
    assert_eq!(rt; fault(rt.alloc(), &longer), Some(ElfFault::TooBig));
    Ok(())
}

/// Edits that load 0x80_0000 bytes of the file, and a byte more once again.
const MORE_LOADED: [Edit; 6] = [
    (CODE + P_OFFSET, 8, 0),
    (CODE + P_FILESZ, 8, 0x80_0000),
    (CODE + P_MEMSZ, 8, 0x80_0000),
    (ZEROS + P_VADDR, 8, 0x100_0000),
    (ZEROS + P_FILESZ, 8, 0x80_0001),
    (ZEROS + P_MEMSZ, 8, 0x80_0001),
];

#[test]
fn counts_file_bytes_that_are_loaded(rt: HostRuntime) -> Result<(), Fail> {
    for (size, expected) in [(0x80_0000, None), (0x80_0001, Some(ElfFault::TooBig))] {
        let mut long = long_file(rt.alloc(), 0x80_0001)?;
        for edit in MORE_LOADED {
            put(&mut long, edit);
        }
        put(&mut long, (ZEROS + P_FILESZ, 8, size));
        put(&mut long, (ZEROS + P_MEMSZ, 8, size));
        assert_eq!(rt; fault(rt.alloc(), &long), expected, "at {size}");
    }
    Ok(())
}

/// Of two faults the earlier: a segment that is too low as well, and one that is longer in the file
/// than in memory.
#[test]
fn counts_them_behind_ranges_and_before_addresses(rt: HostRuntime) -> Result<(), Fail> {
    let rows = [
        ((ZEROS + P_VADDR, 8, 0xfff), ElfFault::TooBig),
        ((ZEROS + P_VADDR, 8, 0x1_0000), ElfFault::TooBig),
        ((ZEROS + P_MEMSZ, 8, 0x80_0000), ElfFault::SegmentRange),
    ];
    for (edit, expected) in rows {
        let mut long = long_file(rt.alloc(), 0x80_0001)?;
        for edit in MORE_LOADED {
            put(&mut long, edit);
        }
        put(&mut long, edit);
        assert_eq!(rt; fault(rt.alloc(), &long), Some(expected), "at {edit:?}");
    }
    Ok(())
}

/// Seventeen PT_LOADs, of which the first has a file byte more than memory.
#[test]
fn counts_loads_before_ranges(rt: HostRuntime) {
    let mut long = with_loads(17);
    put(&mut long, (64 + P_FILESZ, 8, 1));
    assert_eq!(rt; fault(rt.alloc(), &long), Some(ElfFault::TooBig));
    put(&mut long, (E_PHNUM, 2, 16));
    assert_eq!(rt; fault(rt.alloc(), &long), Some(ElfFault::SegmentRange));
}

/// A file of 16,777,216 bytes, all of which are loaded from the address of the zeros on.
#[test]
fn loads_all_of_the_longest_file(rt: HostRuntime) -> Result<(), Fail> {
    let mut longest = long_file(rt.alloc(), 0x100_0000)?;
    for edit in [
        (CODE, 4, 0),
        (ZEROS + P_FLAGS, 4, 5),
        (ZEROS + P_VADDR, 8, 0x1_0001),
        (ZEROS + P_FILESZ, 8, 0x100_0000),
        (ZEROS + P_MEMSZ, 8, 0x100_0000),
    ] {
        put(&mut longest, edit);
    }
    let segments = read_image(rt.alloc(), &longest)?.segments.into_vec();
    assert_eq!(rt;
        segments.first().map(seen),
        Some((0x1_0001, 5, 0x100_0000, 0x100_0000))
    );
    Ok(())
}

/// Each fault, as it is printed.
const NAMES: [(ElfFault, &str); 14] = [
    (ElfFault::Short, "Short"),
    (ElfFault::TooBig, "TooBig"),
    (ElfFault::Magic, "Magic"),
    (ElfFault::Class, "Class"),
    (ElfFault::Order, "Order"),
    (ElfFault::FileKind, "FileKind"),
    (ElfFault::Machine, "Machine"),
    (ElfFault::HeaderSize, "HeaderSize"),
    (ElfFault::ProgramHeader, "ProgramHeader"),
    (ElfFault::SegmentRange, "SegmentRange"),
    (ElfFault::Address, "Address"),
    (ElfFault::Overlap, "Overlap"),
    (ElfFault::Entry, "Entry"),
    (ElfFault::Memory, "Memory"),
];

#[test]
fn names_faults(rt: HostRuntime) -> Result<(), Fail> {
    for (fault, name) in NAMES {
        let text = format!(in rt.alloc(); "{fault}")?;
        assert_eq!(rt; text.as_str(), name);
    }
    assert_eq!(rt; ImageFault::of(ElfFault::Memory), None);
    let short = ImageFault::of(ElfFault::Short).map(|fault| fault.fault);
    assert_eq!(rt; short, Some(ElfFault::Short));
    Ok(())
}
