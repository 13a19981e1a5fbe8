ghost use Rattle.std.specs.Prelude.{◌≡◌, ◌%◌, IfOk, true};
ghost use Rattle.plain_space.specs.PlainSpace.{finished};

mod table;

use super::*;
use crate::instruction::{branch, link, write};
use crate::values::{is_taken, load_size, load_value, store_size, upper_value};
use image_model::{Bytes, Image, Segment, Segments};
use image_start::start_of;
use instruction_model::{BranchOp, LoadOp, StoreOp};
use plain_space::{PlainShelf, PlainSpace, PlainStore};
use space_api::{Space, Start, Store};
use std::alloc::{AllocError, Global};
use std::slice;
use std::test::Fail;

/// A page that may be read, written and executed.
const CODE: u64 = 0x1_0000;

/// Two pages that may be read and written. Each of their bytes is its address and 0x80.
const DATA: u64 = 0x2_0000;

const PAGE: u64 = 4096;

// Flags of a segment.
const RW: u32 = 6;

const RWX: u32 = 7;

/// A step of a table.
#[derive(Clone, Copy)]
struct Step<'a> {
    word: u32,
    x1: u64,
    x2: u64,
    /// The program counter, or where a store writes.
    at: u64,
    end: &'a str,
}

/// The step that a line says.
fn step_of(line: &str) -> Result<Step<'_>, Fail> {
    let (_, rest) = line.split_once(" | ").ok_or("no word")?;
    let (word, rest) = rest.split_once(" | ").ok_or("no registers")?;
    let (registers, rest) = rest.split_once(" | ").ok_or("no address")?;
    let (at, end) = rest.split_once(" | ").ok_or("no end")?;
    let (x1, x2) = registers.split_once(' ').ok_or("no x2")?;
    Ok(Step {
        word: u32::from_str_radix(word, 16)?,
        x1: u64::from_str_radix(x1, 16)?,
        x2: u64::from_str_radix(x2, 16)?,
        at: u64::from_str_radix(at, 16)?,
        end,
    })
}

/// An image of the pages.
fn image(alloc: Global) -> Result<Image, AllocError>
    ensures { IfOk result (λ image. image.entry % 4 ≡ 0) }
{
    let mut bytes = Vec::new(alloc);
    for k in 0..8192_u32 {
        bytes.push(((k + 0x80) % 0x100) as u8)?;
    }
    let mut segments = Vec::new(alloc);
    segments.push(Segment {
        at: CODE,
        flags: RWX,
        size: PAGE,
        bytes: Bytes::from_vec(Vec::new(alloc)),
    })?;
    segments.push(Segment {
        at: DATA,
        flags: RW,
        size: 2 * PAGE,
        bytes: Bytes::from_vec(bytes),
    })?;
    Ok(Image {
        entry: CODE,
        segments: Segments::from_vec(segments),
    })
}

/// The hart before a step that stands at `pc`.
fn hart_at(pc: u64, given: &Step<'_>) -> Hart {
    let mut hart = Hart {
        x: [0; 32],
        pc: pc / 4 * 4,
        resting: false,
    };
    hart.set_register(1, given.x1);
    hart.set_register(2, given.x2);
    hart.set_register(3, 0x33);
    hart
}

/// A space of the start, which may run.
fn deployed(alloc: Global, start: &Start) -> Result<PlainSpace, Fail>
    ensures { IfOk result (λ space. finished space ≡ true) }
{
    let store = PlainStore::open(slice::from_ref(start))?;
    let mut shelf = PlainShelf::new(0);
    let mut image = store.open_image(alloc, &mut shelf, 0)?;
    let mut space = store.deploy(alloc, &mut image, &mut shelf)?;
    store.finish_deploy(&mut space);
    Ok(space)
}

/// A space of the pages with the word at the program counter.
fn space_of(alloc: Global, pc: u64, word: u32) -> Result<PlainSpace, Fail>
    ensures { IfOk result (λ space. finished space ≡ true) }
{
    let image = image(alloc)?;
    let start = start_of(alloc, &image, 0)?;
    let mut space = deployed(alloc, &start)?;
    space.store(pc, 4, u64::from(word))?;
    Ok(space)
}

/// What a step did to the hart, as a line of the table says it.
fn end_of(alloc: Global, before: &Hart, after: &Hart, end: StepEnd) -> Result<String, AllocError> {
    match end {
        StepEnd::Retired => {
            let mut text = String::new(alloc);
            for n in 0..32 {
                let value = after.register(n);
                if value != before.register(n) {
                    text = format!(in alloc; "{text}x{n}={value:x} ")?;
                }
            }
            format!(in alloc; "{text}pc={:x}", after.pc)
        }
        StepEnd::Trap { cause, tval } => format!(in alloc; "trap {cause} {tval:x}"),
        StepEnd::Call => String::from_str(alloc, "call"),
        StepEnd::NeedFrames | StepEnd::Memory => format!(in alloc; "{end:?}"),
    }
}

#[test]
fn steps_do_as_the_manual_says(rt: HostRuntime) -> Result<(), Fail> {
    let alloc = rt.alloc();
    for line in table::ROWS.lines() {
        if line.starts_with('#') {
            continue;
        }
        let given = step_of(line)?;
        let mut space = space_of(alloc, given.at, given.word)?;
        let before = hart_at(given.at, &given);
        let mut hart = before;
        let end = step(&mut hart, &mut space);
        let found = end_of(alloc, &before, &hart, end)?;
        assert_eq!(rt; found.as_str(), given.end, "{line}");
        assert!(rt; end == StepEnd::Retired || hart == before, "{line}");
    }
    for line in table::STORES.lines() {
        let given = step_of(line)?;
        let mut space = space_of(alloc, CODE, given.word)?;
        let mut hart = hart_at(CODE, &given);
        assert_eq!(rt; step(&mut hart, &mut space), StepEnd::Retired, "{line}");
        let number = space.load(given.at, 8)?;
        assert_eq!(rt; number, u64::from_str_radix(given.end, 16)?, "{line}");
    }
    Ok(())
}

/// A hart at 0x1000 with 0 in each register.
fn hart() -> Hart {
    Hart {
        x: [0; 32],
        pc: 0x1000,
        resting: false,
    }
}

#[test]
fn loads_extend(rt: HostRuntime) -> Result<(), Fail> {
    let rows = [
        (LoadOp::Lb, 1, 0x80, 0xffff_ffff_ffff_ff80),
        (LoadOp::Lb, 1, 0x7f, 0x7f),
        (LoadOp::Lbu, 1, 0x80, 0x80),
        (LoadOp::Lh, 2, 0x8000, 0xffff_ffff_ffff_8000),
        (LoadOp::Lhu, 2, 0x8000, 0x8000),
        (LoadOp::Lw, 4, 0x8000_0000, 0xffff_ffff_8000_0000),
        (LoadOp::Lwu, 4, 0x8000_0000, 0x8000_0000),
        (LoadOp::Ld, 8, 0x8000_0000_0000_0000, 0x8000_0000_0000_0000),
    ];
    for (op, size, number, value) in rows {
        assert_eq!(rt; load_size(op), size);
        assert_eq!(rt; load_value(op, number), value);
    }
    assert_eq!(rt; store_size(StoreOp::Sb), 1);
    assert_eq!(rt; store_size(StoreOp::Sd), 8);
    assert_eq!(rt; upper_value(0x8_0000), 0xffff_ffff_8000_0000);
    assert!(rt; is_taken(BranchOp::Blt, 0xffff_ffff_ffff_ffff, 0));
    assert!(rt; !is_taken(BranchOp::Bltu, 0xffff_ffff_ffff_ffff, 0));
    Ok(())
}

#[test]
fn registers_are_written_and_jumped_from(rt: HostRuntime) -> Result<(), Fail> {
    let mut hart = hart();
    assert_eq!(rt; write(&mut hart, 0, 7), StepEnd::Retired);
    assert_eq!(rt; (hart.register(0), hart.pc), (0, 0x1004));
    let trap = StepEnd::Trap {
        cause: 0,
        tval: 0x2002,
    };
    assert_eq!(rt; link(&mut hart, 1, 0x2002), trap);
    assert_eq!(rt; (hart.register(1), hart.pc), (0, 0x1004));
    assert_eq!(rt; link(&mut hart, 1, 0x2000), StepEnd::Retired);
    assert_eq!(rt; (hart.register(1), hart.pc), (0x1008, 0x2000));
    assert_eq!(rt; branch(&mut hart, false, 0x3000), StepEnd::Retired);
    assert_eq!(rt; hart.pc, 0x2004);
    assert_eq!(rt; branch(&mut hart, true, 0x3000), StepEnd::Retired);
    assert_eq!(rt; hart.pc, 0x3000);
    Ok(())
}
