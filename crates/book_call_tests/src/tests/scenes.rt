//! Scenes: calls with what they tell, as one text, with a bar between.

use book_steps::{After, Over, Seen, Shape, Step, read_step, seen_over};
use std::alloc::Global;
use std::test::Fail;

/// A scene: what it is played over, the shape of the book, and the calls, each with what it tells
/// behind an arrow.
#[derive(Clone, Copy)]
pub struct Scene {
    pub over: Over,
    pub shape: Shape,
    pub text: &'static str,
}

/// The calls of a scene.
fn steps_of(alloc: Global, text: &str) -> Option<Vec<Step>> {
    let mut steps = Vec::new(alloc);
    for line in text.split('|') {
        let (call, _told) = line.split_once(" > ")?;
        steps.push(read_step(alloc, call)?).ok()?;
    }
    Some(steps)
}

/// Fails where the call of a line told something else, or appended an event and may not have.
fn look(alloc: Global, line: &str, before: usize, after: After) -> Result<(), Fail> {
    let (_call, expected) = line.split_once(" > ").unwrap_or((line, ""));
    let told = format!(in alloc; "{:?}", after.told)?;
    let silent = after.told.is_silent();
    if told.as_str() == expected && silent == (before == after.events) {
        return Ok(());
    }
    Err(Fail::new(format_args!("{line}: {after:?} after {before} events")))
}

/// Fails where a call of the scene told something else than its line.
fn look_at_all(alloc: Global, text: &str, afters: &[After]) -> Result<(), Fail> {
    let mut before = 0;
    for (place, line) in text.split('|').enumerate() {
        let after = *afters.get(place).ok_or("a call was left out")?;
        look(alloc, line, before, after)?;
        before = after.events;
    }
    Ok(())
}

/// Plays a scene, and fails where a call tells something else than its line.
pub fn played(alloc: Global, scene: &Scene) -> Result<Seen, Fail> {
    let steps = steps_of(alloc, scene.text).ok_or("a line of the scene")?;
    let seen = seen_over(alloc, scene.over, &scene.shape, &steps)?.ok_or("no book")?;
    look_at_all(alloc, scene.text, &seen.afters)?;
    Ok(seen)
}
