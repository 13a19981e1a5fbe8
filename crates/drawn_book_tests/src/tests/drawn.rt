//! Calls that are drawn, each legal where it is made: what each tells, the events after it, and
//! what is there at the end are what the plain lists say.

use super::lists::Lists;
use book_steps::{After, Over, Seen, Shape, Step, seen_over};
use machine_model::Memory;
use std::alloc::Global;
use std::test::Fail;

/// How many calls are drawn for each book.
const CALLS: u32 = 90;

/// How many books of each shape are played.
const BOOKS: u64 = 20;

/// The most requests that are open at once.
const MOST_OPEN: u32 = 6;

/// Numbers that look drawn, and are the same in each run.
#[derive(Drop)]
struct Draws {
    state: u64,
}

impl Draws {
    /// The next number, below this one.
    fn below(&mut self, limit: u32) -> u32 {
        self.state = self
            .state
            .wrapping_mul(6_364_136_223_846_793_005)
            .wrapping_add(1_442_695_040_888_963_407);
        let high = u32::try_from(self.state >> 33).unwrap_or(0);
        high.checked_rem(limit).unwrap_or(0)
    }
}

/// How many requests are open.
fn open_requests(lists: &Lists) -> u32 {
    let mut open: u32 = 0;
    for before in 0..lists.requests() {
        if lists.is_open(before.saturating_add(1)) {
            open = open.saturating_add(1);
        }
    }
    open
}

/// The start of a request, where few are open.
fn start(draws: &mut Draws, lists: &Lists) -> Option<Step> {
    if open_requests(lists) >= MOST_OPEN {
        return None;
    }
    let f = u16::try_from(draws.below(lists.functions())).ok()?;
    Some(Step::Start { f, t: 0 })
}

/// An open request, if the one that is drawn of the last ones is one.
fn open_request(draws: &mut Draws, lists: &Lists) -> Option<u32> {
    let back = draws.below(24);
    let i = lists.requests().checked_sub(back)?;
    if lists.is_open(i) { Some(i) } else { None }
}

/// A context that serves, if the one that is drawn of the last ones does, with its request.
fn serving(draws: &mut Draws, lists: &Lists) -> Option<(u32, u32)> {
    let back = draws.below(24);
    let c = lists.contexts().checked_sub(back)?;
    let i = lists.served_by(c)?;
    Some((c, i))
}

/// That a request is served.
fn serve(draws: &mut Draws, lists: &Lists) -> Option<Step> {
    let i = open_request(draws, lists)?;
    if lists.waits(i) {
        Some(Step::Serve { i })
    } else {
        None
    }
}

/// That a context is captured.
fn keep(draws: &mut Draws, lists: &Lists) -> Option<Step> {
    let (c, i) = serving(draws, lists)?;
    if !lists.is_open(i) {
        return None;
    }
    let k = lists.next_layer(c)?;
    let d = draws.below(9);
    Some(Step::Keep { c, k, d })
}

/// That a context is parked, where it may be.
fn park(draws: &mut Draws, lists: &Lists) -> Option<Step> {
    let (c, i) = serving(draws, lists)?;
    if lists.is_open(i) && lists.may_rest(c) {
        return Some(Step::Park { i, c });
    }
    None
}

/// That a context ends, after its answer where its request is open.
fn end(draws: &mut Draws, lists: &Lists) -> Option<Step> {
    let (c, i) = serving(draws, lists)?;
    let answered = lists.is_open(i).then_some(lists.used(c));
    Some(Step::End { i, c, answered })
}

/// A call that may be made, if what is drawn is one.
fn drawn(draws: &mut Draws, lists: &Lists) -> Option<Step> {
    match draws.below(20) {
        0..=3 => start(draws, lists),
        4..=9 => serve(draws, lists),
        10..=13 => keep(draws, lists),
        14..=17 => park(draws, lists),
        18 => end(draws, lists),
        _ => {
            let i = open_request(draws, lists)?;
            Some(Step::Want { i })
        }
    }
}

/// A call that may be made; that the book is stopped where none is found.
fn next_step(draws: &mut Draws, lists: &Lists) -> Step {
    for _ in 0..10_000 {
        if let Some(step) = drawn(draws, lists) {
            return step;
        }
    }
    Step::Abandon
}

/// Calls, and what is seen after each, by the lists.
#[derive(Drop)]
struct Drawing {
    lists: Lists,
    steps: Vec<Step>,
    afters: Vec<After>,
}

impl Drawing {
    /// One call more.
    fn add(&mut self, step: Step) -> Result<(), Memory> {
        let told = self.lists.told(step)?;
        let after = After {
            told,
            events: self.lists.events.len(),
        };
        if self.steps.push(step).is_err() || self.afters.push(after).is_err() {
            return Err(Memory);
        }
        Ok(())
    }
}

/// So many calls for a book of that shape.
fn drawing_of(alloc: Global, over: Over, shape: &Shape, seed: u64) -> Result<Drawing, Memory> {
    let mut drawing = Drawing {
        lists: Lists::new(alloc, shape, over.root())?,
        steps: Vec::new(alloc),
        afters: Vec::new(alloc),
    };
    let mut draws = Draws { state: seed };
    for _ in 0..CALLS {
        let step = next_step(&mut draws, &drawing.lists);
        drawing.add(step)?;
    }
    Ok(drawing)
}

/// Fails at the first call after which something else is seen.
fn look_at_calls(drawing: &Drawing, seen: &Seen) -> Result<(), Fail> {
    for (at, expected) in drawing.afters.iter().enumerate() {
        let after = seen.afters.get(at);
        if after != Some(expected) {
            let step = drawing.steps.get(at);
            return Err(Fail::new(format_args!("{at} {step:?}: {after:?} for {expected:?}")));
        }
    }
    Ok(())
}

/// Fails where there is something else in the end.
fn look_at_end(drawing: &mut Drawing, seen: &Seen) -> Result<(), Fail> {
    drawing.lists.idle.sort()?;
    drawing.lists.kept.sort()?;
    let same = seen.events.as_slice() == drawing.lists.events.as_slice()
        && seen.idle.as_slice() == drawing.lists.idle.as_slice()
        && seen.kept.as_slice() == drawing.lists.kept.as_slice()
        && (seen.free, seen.noted) == (drawing.lists.free, drawing.lists.free);
    if same {
        return Ok(());
    }
    Err(Fail::new(format_args!("{:?} {:?} {}", seen.idle, seen.kept, seen.free)))
}

/// Plays a book by the calls of a seed, and answers how many there were.
fn play(alloc: Global, over: Over, shape: &Shape, seed: u64) -> Result<usize, Fail> {
    let mut drawing = drawing_of(alloc, over, shape, seed)?;
    let seen = seen_over(alloc, over, shape, &drawing.steps)?.ok_or("no book")?;
    look_at_calls(&drawing, &seen)?;
    look_at_end(&mut drawing, &seen)?;
    Ok(seen.afters.len())
}

/// Few and many rooms; frames that run out, and that don't.
const SHAPES: [(Over, (u32, u32, u32, u32), &str); 8] = [
    (Over::Copies, (64, 1, 1, 64), "00"),
    (Over::Copies, (64, 2, 1, 3), "00/11"),
    (Over::Copies, (64, 0, 2, 64), "0012/003/1"),
    (Over::Copies, (64, 3, 3, 2), "0012/0013/1456"),
    (Over::Copies, (64, 4, 8, 64), "001234567/00/01/1089"),
    (Over::Frames, (64, 2, 1, 64), "00/11"),
    (Over::Frames, (2, 1, 1, 3), "0/1/0"),
    (Over::Frames, (4, 3, 2, 64), "00/11/0/1"),
];

/// The shape of a row. Each of two images takes a counted frame.
fn shape_of(over: Over, rooms: (u32, u32, u32, u32), stacks: &'static str) -> Shape {
    let (frames, idle, layers, uses) = rooms;
    Shape {
        shelf: over.shelf_for(frames),
        frames,
        idle,
        layers,
        uses,
        requests: CALLS,
        stacks,
    }
}

/// Plays books of all shapes, so many of each, and answers how many calls were made.
fn play_all(alloc: Global) -> Result<usize, Fail> {
    let mut calls = 0_usize;
    for (over, rooms, stacks) in SHAPES {
        let shape = shape_of(over, rooms, stacks);
        for seed in 0..BOOKS {
            calls = calls.saturating_add(play(alloc, over, &shape, seed)?);
        }
    }
    Ok(calls)
}

#[test]
fn drawn_calls_do_what_plain_lists_say(rt: HostRuntime) -> Result<(), Fail> {
    assert_eq!(rt; play_all(rt.alloc())?, 14_400);
    Ok(())
}
