//! Faults of plans, as they are printed.

use plan_text::{ElfFault, Key, PlanFault, Text};
use std::alloc::{AllocError, Global};
use std::test::Fail;

/// What is printed of a fault.
fn shown(alloc: Global, fault: PlanFault) -> Result<String, AllocError> {
    format!(in alloc; "{fault}")
}

#[test]
fn faults_of_keys(rt: HostRuntime) -> Result<(), Fail> {
    let missing = shown(rt.alloc(), PlanFault::Missing(Key::Frames))?;
    assert_eq!(rt; missing.as_str(), "Missing frames");
    let shape = shown(rt.alloc(), PlanFault::Shape(Key::Below))?;
    assert_eq!(rt; shape.as_str(), "Shape below");
    let range = shown(rt.alloc(), PlanFault::Range(Key::Packets))?;
    assert_eq!(rt; range.as_str(), "Range packets");
    let name = Text::copy_of(rt.alloc(), "a_b")?;
    let unknown = shown(rt.alloc(), PlanFault::Unknown(name))?;
    assert_eq!(rt; unknown.as_str(), "Unknown a_b");
    Ok(())
}

#[test]
fn other_faults(rt: HostRuntime) -> Result<(), Fail> {
    let rows = [
        (PlanFault::Toml, "Toml"),
        (PlanFault::Name, "Name"),
        (PlanFault::Below, "Below"),
        (PlanFault::Image(ElfFault::Address), "Image Address"),
        (PlanFault::File, "File"),
        (PlanFault::Memory, "Memory"),
    ];
    for (fault, text) in rows {
        let shown = shown(rt.alloc(), fault)?;
        assert_eq!(rt; shown.as_str(), text);
    }
    Ok(())
}
