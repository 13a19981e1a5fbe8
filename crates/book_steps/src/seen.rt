//! What is seen of a book that is played and closed.

use crate::player::Player;
use crate::steps::{Step, Told};
use book_core::{Closed, Started};
use book_core_tests::{Played, Stored, Waiter};
use journal_model::Event;
use machine_model::Memory;
use space_api::{FrozenMemory, Space, Stock, Store};
use std::alloc::{AllocError, Global};

/// What is seen after a call.
#[derive(Clone, Copy, Debug, PartialEq, Eq)]
pub struct After {
    /// What it told.
    pub told: Told,
    /// How many events there are.
    pub events: usize,
}

/// What is seen of a book.
#[derive(Drop)]
pub struct Seen {
    /// After each call.
    pub afters: Vec<After>,
    /// The journal.
    pub events: Vec<Event>,
    /// The numbers of the idle contexts, in rising order.
    pub idle: Vec<u32>,
    /// The numbers of the kept layers, in rising order.
    pub kept: Vec<u32>,
    /// How many frames are free, by the shelf.
    pub free: u32,
    /// How many are, by the journal.
    pub noted: u32,
    /// What contexts, layers, images and requests tell, in rising order of the texts.
    pub lines: Vec<String>,
}

/// One line more.
fn add(lines: &mut Vec<String>, line: String) -> Result<(), Memory> {
    if lines.push(line).is_err() {
        return Err(Memory);
    }
    Ok(())
}

/// One number more.
fn add_number(numbers: &mut Vec<u32>, number: u32) -> Result<(), Memory> {
    if numbers.push(number).is_err() {
        return Err(Memory);
    }
    Ok(())
}

/// What a context tells.
fn context_line<S: Space>(alloc: Global, waiter: &Waiter<S>) -> Result<String, AllocError> {
    let mut line = format!(in alloc;
        "context {} {} {:?}:",
        waiter.id, waiter.function, waiter.layer
    )?;
    for given in &waiter.served {
        line = format!(in alloc; "{line} {:?} {}", given.packet.bytes(), given.clock)?;
    }
    Ok(line)
}

/// What a layer or an image tells.
fn layer_line<Z: FrozenMemory>(alloc: Global, layer: &Stored<Z>) -> Result<String, AllocError> {
    let mark = layer.hart.pc / 4;
    match layer.number {
        Some(k) => format!(in alloc; "layer {k} {} {mark}", layer.start),
        None => format!(in alloc; "image {} {mark}", layer.start),
    }
}

/// What a started request tells.
fn started_line(alloc: Global, one: &Started) -> Result<String, AllocError> {
    let bytes = one.given.packet.bytes();
    format!(in alloc; "started {} {bytes:?} {}", one.function, one.given.clock)
}

/// The idle contexts of a closed book: their numbers, and what they tell.
fn idle_of<S: Space, L, H>(
    alloc: Global,
    closed: &Closed<Waiter<S>, L, H>,
    lines: &mut Vec<String>,
) -> Result<Vec<u32>, Memory> {
    let mut idle = Vec::new(alloc);
    for (_slot, waiter) in closed.contexts.iter() {
        add_number(&mut idle, waiter.id)?;
        add(lines, context_line(alloc, waiter)?)?;
    }
    idle.sort()?;
    Ok(idle)
}

/// The number of a layer; 65,536 where it has none.
fn number_of(number: Option<u16>) -> u32 {
    match number {
        Some(k) => u32::from(k),
        None => 65_536,
    }
}

/// The kept layers of a closed book: their numbers, and what they tell.
fn kept_of<C, Z: FrozenMemory, H>(
    alloc: Global,
    closed: &Closed<C, Stored<Z>, H>,
    lines: &mut Vec<String>,
) -> Result<Vec<u32>, Memory> {
    let mut kept = Vec::new(alloc);
    for (_slot, layer) in closed.layers.iter() {
        add_number(&mut kept, number_of(layer.number))?;
        add(lines, layer_line(alloc, layer)?)?;
    }
    kept.sort()?;
    Ok(kept)
}

/// What images and requests of a closed book tell.
fn tell_rest<C, Z: FrozenMemory, H>(
    alloc: Global,
    closed: &Closed<C, Stored<Z>, H>,
    lines: &mut Vec<String>,
) -> Result<(), Memory> {
    for image in &closed.images {
        add(lines, layer_line(alloc, image)?)?;
    }
    for one in &closed.started {
        add(lines, started_line(alloc, one)?)?;
    }
    Ok(())
}

/// Makes the calls, and answers what is seen after each.
fn afters_of<T: Store>(
    alloc: Global,
    store: &T,
    player: &mut Player<T>,
    steps: &[Step],
) -> Result<Vec<After>, Memory> {
    let mut afters = Vec::new(alloc);
    for step in steps {
        let told = player.told(store, *step);
        let events = player.book().events().len();
        let after = After { told, events };
        if afters.push(after).is_err() {
            return Err(Memory);
        }
    }
    Ok(afters)
}

/// What is seen of a book by which the calls are made, and which is closed then.
pub fn seen_of<T: Store>(
    alloc: Global,
    store: &T,
    played: Played<T>,
    steps: &[Step],
) -> Result<Seen, Memory> {
    let mut player = Player::new(alloc, played);
    let afters = afters_of(alloc, store, &mut player, steps)?;
    let noted = player.book().free()?;
    let closed = player.into_book().close();
    let mut lines = Vec::new(alloc);
    let idle = idle_of(alloc, &closed, &mut lines)?;
    let kept = kept_of(alloc, &closed, &mut lines)?;
    tell_rest(alloc, &closed, &mut lines)?;
    lines.sort()?;
    Ok(Seen {
        afters,
        free: closed.shelf.free(),
        noted,
        events: closed.events,
        idle,
        kept,
        lines,
    })
}
