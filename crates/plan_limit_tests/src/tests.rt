//! Plans at their limits, and one step beyond, each with its answer by hand.

use crate::files::{file_named, files};
use edge_files::MemFiles;
use plan_text::{Plan, PlanFault, read_plan};
use std::alloc::{AllocError, Global};
use std::test::Fail;

/// The text of a plan's top table, but for its layers and functions.
const TOP: &str = "frames = 64\nworkers = 1\nidle = 1\nlayers = 1\n";

/// A function on the first layer.
const ONE_FUNCTION: &str = "[[function]]\nname = \"f\"\nlayer = \"l0\"\n";

/// What a text and the files are: `ok`, or the fault.
fn answer(alloc: Global, text: &str, files: &mut MemFiles) -> Result<String, AllocError> {
    match read_plan(alloc, text.as_bytes(), files) {
        Ok(_) => String::from_str(alloc, "ok"),
        Err(fault) => format!(in alloc; "{fault}"),
    }
}

/// The text of a layer on the image of the file.
fn layer_on(alloc: Global, number: u32, file: &str) -> Result<String, AllocError> {
    format!(in alloc; "[[layer]]\nname = \"l{number}\"\nimage = \"{file}\"\ntrigger = 4096\n")
}

/// A plan of layers on the images of these files, with a space before each.
fn layers_on(alloc: Global, names: &str) -> Result<String, AllocError> {
    let mut text = String::from_str(alloc, TOP)?;
    for (number, file) in (0u32..100).zip(names.split(' ').skip(1)) {
        text.push_str(layer_on(alloc, number, file)?.as_str())?;
    }
    text.push_str(ONE_FUNCTION)?;
    Ok(text)
}

/// The files of the images of a plan's layers, and the answer.
const LONG: [(&str, &str); 7] = [
    (" large large large large", "ok"),
    (" large large large large large", "Image TooBig"),
    (" huge none", "Image TooBig"),
    (" huge", "Image TooBig"),
    // All files have 67,108,864 bytes together, and a byte more.
    (" large large large rest count", "ok"),
    (" large large large more count", "Image TooBig"),
    // A file's own fault goes first.
    (" large large large large short", "Image Short"),
];

/// The same, where the files are small enough, and load 67,108,864 bytes together or more.
const LOADED: [(&str, &str); 4] = [
    (" twice twice twice twice", "ok"),
    (" twice twice twice twice twice", "Image TooBig"),
    (" twice twice twice part count", "ok"),
    (" twice twice twice over count", "Image TooBig"),
];

/// Whether plans on the images of these files have these answers.
fn have_answers(alloc: Global, rows: &[(&str, &str)]) -> Result<bool, AllocError> {
    let mut files = files(alloc)?;
    for (names, want) in rows {
        let text = layers_on(alloc, names)?;
        let got = answer(alloc, text.as_str(), &mut files)?;
        if got.as_str() != *want {
            return Ok(false);
        }
    }
    Ok(true)
}

#[test]
fn files_as_long_as_may_be(rt: HostRuntime) -> Result<(), Fail> {
    assert!(rt; have_answers(rt.alloc(), &LONG)?);
    Ok(())
}

#[test]
fn as_much_loaded_as_may_be(rt: HostRuntime) -> Result<(), Fail> {
    assert!(rt; have_answers(rt.alloc(), &LOADED)?);
    Ok(())
}

#[test]
fn as_many_images_as_may_be(rt: HostRuntime) -> Result<(), Fail> {
    let mut files = file_named(rt.alloc(), "count")?;
    for (count, want) in [(64, "ok"), (65, "Range layer")] {
        let names = " count".repeat(rt.alloc(), count)?;
        let text = layers_on(rt.alloc(), names.as_str())?;
        let got = answer(rt.alloc(), text.as_str(), &mut files)?;
        assert_eq!(rt; got.as_str(), want);
    }
    Ok(())
}

/// A plan of so many layers, each but the first on the one before it, with a function on the last.
fn chain(alloc: Global, count: u32) -> Result<String, AllocError> {
    let mut text = String::from_str(alloc, TOP)?;
    text.push_str(layer_on(alloc, 0, "count")?.as_str())?;
    for number in 1..count {
        let below = number - 1;
        let layer = format!(in alloc;
            "[[layer]]\nname = \"l{number}\"\nbelow = \"l{below}\"\ntrigger = 4096\n"
        )?;
        text.push_str(layer.as_str())?;
    }
    let last = count.saturating_sub(1);
    let function = format!(in alloc; "[[function]]\nname = \"f\"\nlayer = \"l{last}\"\n")?;
    text.push_str(function.as_str())?;
    Ok(text)
}

/// The plan of a text over one good image, `count`.
fn plan(alloc: Global, text: &str) -> Result<Plan, PlanFault> {
    read_plan(alloc, text.as_bytes(), &mut file_named(alloc, "count")?)
}

#[test]
fn a_chain_of_layers(rt: HostRuntime) -> Result<(), Fail> {
    let text = chain(rt.alloc(), 64)?;
    let plan = plan(rt.alloc(), text.as_str())?;
    assert!(rt; plan.layers().len() == 64 && plan.starts().len() == 1);
    assert!(rt; plan.functions().len() == 1);
    if !plan.functions().is_empty() {
        let stack = plan.stack(0);
        assert!(rt; stack.len() == 64);
        assert!(rt; stack.first().copied() == Some(0) && stack.last().copied() == Some(63));
    }
    Ok(())
}

/// A plan of one layer and so many functions on it.
fn functions(alloc: Global, count: u32) -> Result<String, AllocError> {
    let mut text = String::from_str(alloc, TOP)?;
    text.push_str(layer_on(alloc, 0, "count")?.as_str())?;
    for number in 0..count {
        let function = format!(in alloc; "[[function]]\nname = \"f{number}\"\nlayer = \"l0\"\n")?;
        text.push_str(function.as_str())?;
    }
    Ok(text)
}

#[test]
fn as_many_functions_as_may_be(rt: HostRuntime) -> Result<(), Fail> {
    let text = functions(rt.alloc(), 64)?;
    let plan = plan(rt.alloc(), text.as_str())?;
    assert!(rt; plan.functions().len() == 64 && plan.names().as_slice().len() == 64);
    let text = functions(rt.alloc(), 65)?;
    let got = answer(
        rt.alloc(),
        text.as_str(),
        &mut file_named(rt.alloc(), "count")?,
    )?;
    assert_eq!(rt; got.as_str(), "Range function");
    Ok(())
}

/// A plan whose one layer has so many packets of so many bytes 0xa5.
fn packets(alloc: Global, count: usize, size: usize) -> Result<String, AllocError> {
    let digits = "a5".repeat(alloc, size)?;
    let digits = digits.as_str();
    let packets = format!(in alloc; "\"{digits}\",")?
        .as_str()
        .repeat(alloc, count)?;
    let packets = packets.as_str();
    let layer = layer_on(alloc, 0, "count")?;
    let layer = layer.as_str();
    format!(in alloc; "{TOP}{layer}packets = [{packets}]\n{ONE_FUNCTION}")
}

/// How many packets of a plan have so many bytes, all of them 0xa5.
fn count_packets(plan: &Plan, size: usize) -> usize {
    let mut count = 0;
    for layer in plan.layers() {
        for packet in layer.packets.as_slice() {
            let bytes = packet.bytes();
            if bytes.len() == size && bytes.iter().all(|byte| *byte == 0xa5) && count < 100 {
                count += 1;
            }
        }
    }
    count
}

/// A plan's text has room for fifteen packets of the greatest length.
#[test]
fn packets_as_long_as_may_be(rt: HostRuntime) -> Result<(), Fail> {
    let text = packets(rt.alloc(), 15, 32_768)?;
    let plan = plan(rt.alloc(), text.as_str())?;
    assert!(rt; count_packets(&plan, 32_768) == 15);
    let text = packets(rt.alloc(), 1, 32_769)?;
    let got = answer(
        rt.alloc(),
        text.as_str(),
        &mut file_named(rt.alloc(), "count")?,
    )?;
    assert_eq!(rt; got.as_str(), "Range packets");
    Ok(())
}

/// A path of so many bytes.
fn path(alloc: Global, length: usize) -> Result<String, AllocError> {
    "d".repeat(alloc, length)
}

#[test]
fn a_long_path(rt: HostRuntime) -> Result<(), Fail> {
    let name = path(rt.alloc(), 300)?;
    let text = format!(in rt.alloc(); " {}", name.as_str())?;
    let text = layers_on(rt.alloc(), text.as_str())?;
    let mut files = file_named(rt.alloc(), name.as_str())?;
    let got = answer(rt.alloc(), text.as_str(), &mut files)?;
    assert_eq!(rt; got.as_str(), "ok");
    let mut others = file_named(rt.alloc(), path(rt.alloc(), 299)?.as_str())?;
    let got = answer(rt.alloc(), text.as_str(), &mut others)?;
    assert_eq!(rt; got.as_str(), "File");
    Ok(())
}
