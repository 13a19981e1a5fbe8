//! In which order the keys of a table are looked at: tables that are bad from one of their keys on.

use crate::tests::{TOP, answer, files};
use std::alloc::{AllocError, Global};
use std::test::Fail;

/// The keys of the top table in their order, each with a value that it may have and one that is out
/// of its range.
const KEYS: [(&str, &str, &str); 12] = [
    ("frames", "64", "0"),
    ("workers", "1", "17"),
    ("idle", "1", "-1"),
    ("layers", "1", "257"),
    ("uses", "64", "65"),
    ("budget", "1", "0"),
    ("prepare", "1", "0"),
    ("stack", "4096", "4097"),
    ("clock", "0", "-1"),
    ("serve", "1", "4097"),
    ("layer", "[{}]", "[]"),
    ("function", "[{}]", "[]"),
];

/// Adds a key with a value to a table.
fn add_key(text: &mut String, key: &str, value: &str) -> Result<(), AllocError> {
    text.push_str(key)?;
    text.push_str(" = ")?;
    text.push_str(value)?;
    text.push_str("\n")
}

/// A top table whose keys are good before the one of the number, which is out of its range; those
/// behind it are of another type.
fn out_of_range_at(alloc: Global, number: usize) -> Result<String, AllocError> {
    let mut text = String::new(alloc);
    for (place, (key, good, out)) in (0..12usize).zip(KEYS) {
        if place < number {
            add_key(&mut text, key, good)?;
        } else if place == number {
            add_key(&mut text, key, out)?;
        } else {
            add_key(&mut text, key, "true")?;
        }
    }
    Ok(text)
}

/// A top table whose keys are good before the one of the number, which is of another type; it ends
/// there.
fn mistyped_at(alloc: Global, number: usize) -> Result<String, AllocError> {
    let mut text = cut_at(alloc, number)?;
    for (place, (key, _, _)) in (0..12usize).zip(KEYS) {
        if place == number {
            add_key(&mut text, key, "\"1\"")?;
        }
    }
    Ok(text)
}

/// A top table whose keys are good before the one of the number; it ends there.
fn cut_at(alloc: Global, number: usize) -> Result<String, AllocError> {
    let mut text = String::new(alloc);
    for (place, (key, good, _)) in (0..12usize).zip(KEYS) {
        if place < number {
            add_key(&mut text, key, good)?;
        }
    }
    Ok(text)
}

/// What the text of a plan is.
fn told(alloc: Global, text: &str) -> Result<String, AllocError> {
    answer(alloc, text.as_bytes(), &mut files(alloc)?)
}

#[test]
fn a_top_table_is_out_of_range_at_its_first_bad_key(rt: HostRuntime) -> Result<(), Fail> {
    for (number, (key, _, _)) in (0..12usize).zip(KEYS) {
        let text = out_of_range_at(rt.alloc(), number)?;
        let got = told(rt.alloc(), text.as_str())?;
        assert_eq!(rt; got.as_str().strip_prefix("Range "), Some(key));
    }
    Ok(())
}

#[test]
fn a_top_table_is_mistyped_at_its_first_bad_key(rt: HostRuntime) -> Result<(), Fail> {
    for (number, (key, _, _)) in (0..12usize).zip(KEYS) {
        let text = mistyped_at(rt.alloc(), number)?;
        let got = told(rt.alloc(), text.as_str())?;
        assert_eq!(rt; got.as_str().strip_prefix("Shape "), Some(key));
    }
    Ok(())
}

/// How many of the keys a top table has, and the first that it lacks.
const LACKING: [(usize, &str); 8] = [
    (0, "frames"),
    (1, "workers"),
    (2, "idle"),
    (3, "layers"),
    (4, "layer"),
    (9, "layer"),
    (10, "layer"),
    (11, "function"),
];

#[test]
fn a_top_table_lacks_its_first_missing_key(rt: HostRuntime) -> Result<(), Fail> {
    for (number, key) in LACKING {
        let text = cut_at(rt.alloc(), number)?;
        let got = told(rt.alloc(), text.as_str())?;
        assert_eq!(rt; got.as_str().strip_prefix("Missing "), Some(key));
    }
    Ok(())
}

/// Two layers and two functions, with the answer; each is bad from one of its keys on.
const TABLES: [(&str, &str, &str); 13] = [
    ("{b = 1, a = 1}, 1", "1", "Shape layer"),
    ("{b = 1, a = 1}, {}", "1", "Shape function"),
    ("{b = 1, a = 1}, {}", "{}, {}", "Unknown a"),
    ("{}, {a = 1}", "{}, {}", "Missing name"),
    (
        "{name = 1, trigger = 1, packets = 1}, {}",
        "{}, {}",
        "Shape name",
    ),
    (
        "{name = \"\", trigger = 1, packets = 1}, {}",
        "{}, {}",
        "Missing image",
    ),
    (
        "{name = \"\", image = 1, trigger = 1, packets = 1}, {}",
        "{}, {}",
        "Shape image",
    ),
    (
        "{name = \"\", below = 1, packets = 1}, {}",
        "{}, {}",
        "Shape below",
    ),
    (
        "{name = \"\", below = \"\", packets = 1}, {}",
        "{}, {}",
        "Missing trigger",
    ),
    (
        "{name = \"\", below = \"\", trigger = 1, packets = 1}, {}",
        "{}, {}",
        "Range trigger",
    ),
    (
        "{name = \"\", below = \"\", trigger = 4096, packets = 1}, {}",
        "{}, {}",
        "Shape packets",
    ),
    (
        "{name = \"\", below = \"\", trigger = 4096}",
        "{layer = 1}, {a = 1}",
        "Missing name",
    ),
    (
        "{name = \"\", below = \"\", trigger = 4096}",
        "{name = \"\", layer = 1}, {}",
        "Shape layer",
    ),
];

#[test]
fn tables_are_bad_at_their_first_bad_key(rt: HostRuntime) -> Result<(), Fail> {
    for (layers, functions, want) in TABLES {
        let text = format!(in rt.alloc(); "{TOP}layer = [{layers}]\nfunction = [{functions}]\n")?;
        let got = told(rt.alloc(), text.as_str())?;
        assert_eq!(rt; got.as_str(), want);
    }
    Ok(())
}

/// A name that is malformed, a layer on none, and a file that there isn't, and the answer.
const BEHIND: [(&str, &str, &str); 4] = [
    ("{name = \"A\", below = \"a\", trigger = 4096}", "a", "Name"),
    ("{name = \"a\", below = \"b\", trigger = 4096}", "A", "Name"),
    (
        "{name = \"a\", below = \"a\", trigger = 4096}",
        "a",
        "Below",
    ),
    (
        "{name = \"a\", image = \"none.elf\", trigger = 4096}",
        "a",
        "File",
    ),
];

#[test]
fn names_come_behind_all_tables(rt: HostRuntime) -> Result<(), Fail> {
    for (layer, name, want) in BEHIND {
        let function = format!(in rt.alloc();
            "function = [{{name = \"{name}\", layer = \"a\"}}]\n"
        )?;
        let function = function.as_str();
        let text = format!(in rt.alloc(); "{TOP}layer = [{layer}]\n{function}")?;
        let got = told(rt.alloc(), text.as_str())?;
        assert_eq!(rt; got.as_str(), want);
    }
    Ok(())
}
