//! Plans one step away from a good one, each with its answer, and a good plan's fields, by hand.

use edge_files::MemFiles;
use plan_text::{Numbers, Plan, PlanFault, Start, first_hart, read_plan};
use std::alloc::{AllocError, Global};
use std::test::Fail;

mod rows;

/// The text of a plan with one layer and one function.
const COUNT: &str = "frames = 64\nworkers = 1\nidle = 1\nlayers = 1\n[[layer]]\nname = \"count\"\n\
    image = \"count.elf\"\ntrigger = 65544\n\
    [[function]]\nname = \"count\" # f\nlayer = \"count\"\n";

/// The text of a plan with three layers, one on another.
const THREE: &str = "frames = 64\nworkers = 2\nidle = 1\nlayers = 3\nstack = 8192\nclock = 7\n\
    [[layer]]\nname = \"l0\"\nimage = \"count.elf\"\ntrigger = 65544\n\
    [[layer]]\nname = \"l1\"\nbelow = \"l0\"\ntrigger = 65548\npackets = [\"01\"]\n\
    [[layer]]\nname = \"l2\"\nbelow = \"l1\"\ntrigger = 65552\npackets = [\"\", \"0aFf\"]\n\
    [[function]]\nname = \"sum\"\nlayer = \"l2\"\n[[function]]\nname = \"low\"\nlayer = \"l0\"\n";

/// The end of a layer, and another layer up to its image.
const TOP_LAYER: &str = ";trigger = 4096;[[layer]];name = \"top\";image = ";

/// The text of a plan's top table, but for its layers and functions.
pub const TOP: &str = "frames = 64\nworkers = 1\nidle = 1\nlayers = 1\n";

/// The header of an ELF file with two segments whose run begins at 0x10000.
const HEADER: &[u8] = b"\x7fELF\x02\x01\x01\0\0\0\0\0\0\0\0\0\
    \x02\0\xf3\0\x01\0\0\0\0\0\x01\0\0\0\0\0\x40\0\0\0\0\0\0\0\
    \0\0\0\0\0\0\0\0\0\0\0\0\x40\0\x38\0\x02\0\0\0\0\0\0\0";

/// Seventeen ECALLs.
const CODE: &[u8] = b"\x73\0\0\0\x73\0\0\0\x73\0\0\0\x73\0\0\0\x73\0\0\0\x73\0\0\0\
    \x73\0\0\0\x73\0\0\0\x73\0\0\0\x73\0\0\0\x73\0\0\0\x73\0\0\0\
    \x73\0\0\0\x73\0\0\0\x73\0\0\0\x73\0\0\0\x73\0\0\0";

/// Adds the header of a segment of 0x1000 bytes with these flags at this address, of which so many
/// stand in the file from offset 176 on.
fn add_segment(file: &mut Vec<u8>, flags: u32, at: u32, size: u32) -> Result<(), AllocError> {
    for word in [1, flags, 176, 0, at, 0, at, 0, size, 0, 0x1000, 0, 1, 0] {
        file.extend_from_slice(&word.to_le_bytes())?;
    }
    Ok(())
}

/// An ELF file with code of 68 bytes at 0x10000, and data at 0x1000000 without a byte.
fn image_file(alloc: Global) -> Result<Vec<u8>, AllocError> {
    let mut file = HEADER.to_vec(alloc)?;
    add_segment(&mut file, 5, 0x10000, 68)?;
    add_segment(&mut file, 6, 0x100_0000, 0)?;
    file.extend_from_slice(CODE)?;
    Ok(file)
}

/// Files: a good image, and its first 63 bytes.
pub fn files(alloc: Global) -> Result<MemFiles, AllocError> {
    let mut files = MemFiles::new(alloc, Vec::new(alloc));
    files.add("count.elf", image_file(alloc)?)?;
    let mut short = image_file(alloc)?;
    short.truncate(63);
    files.add("short.elf", short)?;
    Ok(files)
}

/// The plan's text with a line in place of another.
fn changed(alloc: Global, old: &str, new: &str) -> Result<String, AllocError> {
    let mut text = String::new(alloc);
    for line in COUNT.lines() {
        if line == old {
            text.push_str(new)?;
        } else {
            text.push_str(line)?;
        }
        text.push_str("\n")?;
    }
    Ok(text)
}

/// What a text and the files are: `ok`, or the fault.
pub fn answer(alloc: Global, text: &[u8], files: &mut MemFiles) -> Result<String, AllocError> {
    match read_plan(alloc, text, files) {
        Ok(_) => String::from_str(alloc, "ok"),
        Err(fault) => format!(in alloc; "{fault}"),
    }
}

/// Looks at each row: a line, what stands in its place, and the answer.
fn look_at(alloc: Global, rows: &str) -> Result<bool, AllocError> {
    let mut files = files(alloc)?;
    for row in rows.lines() {
        let mut parts = row.split('|');
        let old = parts.next().unwrap_or("");
        let new = parts.next().unwrap_or("");
        let want = parts.next().unwrap_or("");
        let text = changed(alloc, old, new)?;
        let text = text.replace(alloc, "EIGHT", "\"\",\"\",\"\",\"\",\"\",\"\",\"\",\"\"")?;
        let text = text.replace(alloc, "AND_TOP", TOP_LAYER)?;
        let text = text.replace(alloc, ";", "\n")?;
        let got = answer(alloc, text.as_bytes(), &mut files)?;
        if got.as_str() != want {
            return Ok(false);
        }
    }
    Ok(true)
}

#[test]
fn one_line_changed(rt: HostRuntime) -> Result<(), Fail> {
    let alloc = rt.alloc();
    assert!(rt; look_at(alloc, rows::CAPACITY)?);
    assert!(rt; look_at(alloc, rows::LIMITS)?);
    assert!(rt; look_at(alloc, rows::LAYERS)?);
    assert!(rt; look_at(alloc, rows::FUNCTIONS)?);
    Ok(())
}

/// Tables behind the top table, and the answer.
const TABLES: [(&str, &str); 6] = [
    ("", "Missing layer"),
    ("layer = []\n", "Range layer"),
    ("layer = [1]\n", "Shape layer"),
    ("layer = [{}]\n", "Missing function"),
    ("layer = [{}]\nfunction = []\n", "Range function"),
    ("layer = [{}]\nfunction = [{}]\n", "Missing name"),
];

#[test]
fn texts_of_other_tables(rt: HostRuntime) -> Result<(), Fail> {
    let mut files = files(rt.alloc())?;
    for (tables, want) in TABLES {
        let text = format!(in rt.alloc(); "{TOP}{tables}")?;
        let got = answer(rt.alloc(), text.as_bytes(), &mut files)?;
        assert!(rt; got.as_str() == want);
    }
    Ok(())
}

/// What a text of so many line feeds is.
fn line_feeds(alloc: Global, count: usize) -> Result<String, AllocError> {
    let text = vec![in alloc; b'\n'; count]?;
    answer(alloc, &text, &mut files(alloc)?)
}

#[test]
fn texts_that_are_too_long_or_no_text(rt: HostRuntime) -> Result<(), Fail> {
    assert!(rt; line_feeds(rt.alloc(), 1_048_577)?.as_str() == "Toml");
    assert!(rt; line_feeds(rt.alloc(), 1_048_576)?.as_str() == "Missing frames");
    let got = answer(rt.alloc(), b"a = \"\xff\"", &mut files(rt.alloc())?)?;
    assert!(rt; got.as_str() == "Toml");
    Ok(())
}

/// What a text with an unknown key of so many `k` is.
fn long_key(alloc: Global, count: usize) -> Result<String, AllocError> {
    let mut text = vec![in alloc; b'k'; count]?;
    text.extend_from_slice(b" = 1\n")?;
    answer(alloc, &text, &mut files(alloc)?)
}

/// Sixty-four `k`, with what stands before and behind them.
const LONGEST_KEY: &str =
    "Unknown kkkkkkkkkkkkkkkkkkkkkkkkkkkkkkkkkkkkkkkkkkkkkkkkkkkkkkkkkkkkkkkk...";

#[test]
fn a_key_is_shown_up_to_its_first_64_bytes(rt: HostRuntime) -> Result<(), Fail> {
    let whole = long_key(rt.alloc(), 64)?;
    assert!(rt; LONGEST_KEY.strip_suffix("...") == Some(whole.as_str()));
    assert!(rt; long_key(rt.alloc(), 65)?.as_str() == LONGEST_KEY);
    assert!(rt; long_key(rt.alloc(), 100_000)?.as_str() == LONGEST_KEY);
    Ok(())
}

/// The numbers of `COUNT`, and the defaults of all that it leaves out.
const DEFAULTS: Numbers = Numbers {
    frames: 64,
    workers: 1,
    idle: 1,
    room: 1,
    uses: 64,
    budget: 1_000_000,
    prepare: 10_000_000,
    stack_bytes: 65_536,
    clock: 0,
    serve: 4_096,
};

#[test]
fn a_plan_has_the_defaults(rt: HostRuntime) -> Result<(), Fail> {
    let plan = read_plan(rt.alloc(), COUNT.as_bytes(), &mut files(rt.alloc())?)?;
    assert!(rt; *plan.numbers() == DEFAULTS);
    Ok(())
}

/// The plan of `THREE`.
fn three(alloc: Global) -> Result<Plan, PlanFault> {
    read_plan(alloc, THREE.as_bytes(), &mut files(alloc)?)
}

/// The numbers of `THREE`, and the defaults of those that it leaves out.
const NUMBERS: Numbers = Numbers {
    frames: 64,
    workers: 2,
    idle: 1,
    room: 3,
    uses: 64,
    budget: 1_000_000,
    prepare: 10_000_000,
    stack_bytes: 8_192,
    clock: 7,
    serve: 4_096,
};

#[test]
fn a_plan_has_the_numbers_of_its_text(rt: HostRuntime) -> Result<(), Fail> {
    assert!(rt; *three(rt.alloc())?.numbers() == NUMBERS);
    Ok(())
}

/// Each layer's name, the layer below or 99, its start, its trigger, and how many packets it has.
fn layer_lines(alloc: Global, plan: &Plan) -> Result<String, AllocError> {
    let mut lines = String::new(alloc);
    for layer in plan.layers() {
        let below = layer.below.map_or(99, |below| below);
        let line = format!(in alloc;
            "{} {below} {} {} {};",
            layer.name.as_str(),
            layer.start,
            layer.trigger,
            layer.packets.as_slice().len()
        )?;
        lines.push_str(line.as_str())?;
    }
    Ok(lines)
}

/// Each function's name and layer.
fn function_lines(alloc: Global, plan: &Plan) -> Result<String, AllocError> {
    let mut lines = String::new(alloc);
    for (function, name) in plan.functions().iter().zip(plan.names().as_slice()) {
        let line = format!(in alloc; "{} {};", name.as_str(), function.layer)?;
        lines.push_str(line.as_str())?;
    }
    Ok(lines)
}

#[test]
fn a_plan_has_the_tables_of_its_text(rt: HostRuntime) -> Result<(), Fail> {
    let plan = three(rt.alloc())?;
    let layers = layer_lines(rt.alloc(), &plan)?;
    assert!(rt; layers.as_str() == "l0 99 0 65544 0;l1 0 0 65548 1;l2 1 0 65552 2;");
    assert!(rt; function_lines(rt.alloc(), &plan)?.as_str() == "sum 2;low 0;");
    Ok(())
}

/// A start's entry, its regions and the page of the last one, and its pages.
fn start_line(alloc: Global, start: &Start) -> Result<String, AllocError> {
    let regions = start.regions();
    let last = regions.last().map_or(0, |region| region.page);
    format!(in alloc;
        "{:x} {} {last:x} {}",
        start.entry(),
        regions.len(),
        start.pages().len()
    )
}

#[test]
fn a_plan_has_a_start(rt: HostRuntime) -> Result<(), Fail> {
    let plan = three(rt.alloc())?;
    assert!(rt; plan.starts().len() == 1);
    for start in plan.starts() {
        assert!(rt; start_line(rt.alloc(), start)?.as_str() == "10000 3 3fffffe 1");
    }
    Ok(())
}

/// What a hart begins with: the program counter, x1, x2, and whether it waits.
fn begun(start: &Start) -> (u64, u64, u64, bool) {
    if start.entry() % 4 == 0 {
        let hart = first_hart(start);
        (hart.pc, hart.x[1], hart.x[2], hart.resting)
    } else {
        (0, 0, 0, true)
    }
}

#[test]
fn a_hart_begins_at_the_entry(rt: HostRuntime) -> Result<(), Fail> {
    for start in three(rt.alloc())?.starts() {
        assert!(rt; begun(start) == (0x10000, 0, 0x40_0000_0000, false));
    }
    Ok(())
}

#[test]
fn a_function_has_a_stack(rt: HostRuntime) -> Result<(), Fail> {
    let plan = three(rt.alloc())?;
    if !plan.functions().is_empty() {
        assert!(rt; plan.stack(0) == [0, 1, 2].as_slice());
    }
    Ok(())
}

/// The bytes of all packets, one after another.
fn packet_bytes(alloc: Global, plan: &Plan) -> Result<Vec<u8>, AllocError> {
    let mut bytes = Vec::new(alloc);
    for layer in plan.layers() {
        for packet in layer.packets.as_slice() {
            bytes.extend_from_slice(packet.bytes())?;
        }
    }
    Ok(bytes)
}

#[test]
fn packets_are_decoded(rt: HostRuntime) -> Result<(), Fail> {
    let plan = three(rt.alloc())?;
    assert!(rt; packet_bytes(rt.alloc(), &plan)?.as_slice() == [1, 10, 255].as_slice());
    Ok(())
}
