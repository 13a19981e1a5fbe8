//! Books over copied pages, and over counted frames.

ghost use Rattle.std.specs.Prelude.{◌≡◌, ◌^◌, IfOk, length};

use crate::seen::{Seen, seen_of};
use crate::steps::Step;
use book_core_tests::Played;
use counted_store::{CountedShelf, CountedStore};
use image_model::{PAGE_SIZE, Region, Start};
use journal_model::{FunctionStack, Sizes};
use machine_model::Memory;
use plain_space::{PlainShelf, PlainStore};
use std::alloc::{AllocError, Global};
use std::marker::Brand;
use std::sync::ledger::{Blank, Ledger};

/// How many parts the whole of all stakes has.
const WHOLE: u64 = 34_359_738_368;

/// The most frames that there are.
const MOST_FRAMES: u32 = 131_072;

/// How many images there are; each takes a counted frame.
pub const IMAGES: u16 = 2;

/// What a book is played over.
#[derive(Clone, Copy, Debug, PartialEq, Eq)]
pub enum Over {
    /// Copied pages, which take no frames.
    Copies,
    /// Counted frames.
    Frames,
}

impl Over {
    /// How many frames a deploy takes.
    pub fn root(self) -> u32 {
        match self {
            Over::Copies => 0,
            Over::Frames => 1,
        }
    }

    /// How many frames are on the shelf before the images are opened, if so many are free then.
    pub fn shelf_for(self, frames: u32) -> u32 {
        match self {
            Over::Copies => frames,
            Over::Frames => frames.saturating_add(u32::from(IMAGES)),
        }
    }
}

/// What a book is opened with, with the clock at 0.
#[derive(Clone, Copy)]
pub struct Shape {
    /// How many frames are on the shelf, at most 131,072.
    pub shelf: u32,
    /// How many are to be free.
    pub frames: u32,
    /// The room for idle contexts.
    pub idle: u32,
    /// The room for kept layers.
    pub layers: u32,
    /// How often a context is used.
    pub uses: u32,
    /// How many requests there are.
    pub requests: u32,
    /// The functions, with a slash between: a digit of the image, and one of each layer.
    pub stacks: &'static str,
}

/// The number of a digit.
fn digit_of(digit: u8) -> u16 {
    u16::from(digit.saturating_sub(b'0'))
}

/// The stack of digits.
fn stack_of(alloc: Global, digits: &[u8]) -> Result<FunctionStack, Memory> {
    let mut start = 0;
    let mut layers = Vec::new(alloc);
    for (place, digit) in digits.iter().enumerate() {
        if place == 0 {
            start = digit_of(*digit);
        } else if layers.push(digit_of(*digit)).is_err() {
            return Err(Memory);
        }
    }
    Ok(FunctionStack { start, layers })
}

/// The stacks of all functions.
fn stacks_of(alloc: Global, text: &str) -> Result<Vec<FunctionStack>, Memory> {
    let mut stacks = Vec::new(alloc);
    for digits in text.split('/') {
        let stack = stack_of(alloc, digits.as_bytes())?;
        if stacks.push(stack).is_err() {
            return Err(Memory);
        }
    }
    Ok(stacks)
}

/// The sizes of a book of that shape, where a deploy takes so many frames.
pub fn sizes_of(alloc: Global, shape: &Shape, root: u32) -> Result<Sizes, Memory>
    ensures { IfOk result (λ sizes. sizes.root ≡ root) }
{
    Ok(Sizes {
        frames: shape.frames,
        root,
        idle: shape.idle,
        layers: shape.layers,
        uses: shape.uses,
        requests: shape.requests,
        clock: Some(0),
        stacks: stacks_of(alloc, shape.stacks)?,
    })
}

/// A start of one page that may be read and written, with no bytes.
fn start(alloc: Global) -> Result<Start, AllocError> {
    let region = Region {
        page: 16,
        count: 1,
        r: true,
        w: true,
        x: false,
    };
    let regions = vec![in alloc; region]?;
    Ok(Start::new(16 * PAGE_SIZE, regions, Vec::new(alloc)))
}

/// What the images start with.
fn starts(alloc: Global) -> Result<Vec<Start>, AllocError>
    ensures { IfOk result (λ starts. length starts.items ≡ 2) }
{
    let first = start(alloc)?;
    let second = start(alloc)?;
    Ok(vec![in alloc; first, second]?)
}

/// What is seen over copied pages; none where the book may not be opened so.
fn copied(alloc: Global, shape: &Shape, steps: &[Step]) -> Result<Option<Seen>, Memory> {
    let starts = starts(alloc)?;
    let store = PlainStore::open(&starts)?;
    let shelf = PlainShelf::new(shape.shelf.min(MOST_FRAMES));
    let sizes = sizes_of(alloc, shape, 0)?;
    let Some(played) = Played::open(alloc, &store, sizes, shelf, IMAGES)? else {
        return Ok(None);
    };
    Ok(Some(seen_of(alloc, &store, played, steps)?))
}

/// What is seen over counted frames, with a ledger of its own; none where the book may not be
/// opened so.
fn counted_by<L: Ledger + Send + Sync>(
    alloc: Global,
    shape: &Shape,
    steps: &[Step],
    blank: Blank,
) -> Result<Option<Seen>, Memory>
    requires name { blank.name ≡ L.name }
    requires parts { blank.parts ≡ L.parts }
    requires whole { blank.parts ≡ 2 ^ 35 }
{
    let starts = starts(alloc)?;
    let store = CountedStore::<L>::open(&starts);
    let shelf = CountedShelf::<L>::new(shape.shelf.min(MOST_FRAMES), WHOLE, blank);
    let sizes = sizes_of(alloc, shape, 1)?;
    let Some(played) = Played::open(alloc, &store, sizes, shelf, IMAGES)? else {
        return Ok(None);
    };
    Ok(Some(seen_of(alloc, &store, played, steps)?))
}

/// What is seen over counted frames; none where the book may not be opened so.
fn counted(alloc: Global, shape: &Shape, steps: &[Step]) -> Result<Option<Seen>, Memory> {
    counted_by::<Brand>(alloc, shape, steps, Blank::new(WHOLE))
}

/// What is seen of a book by which the calls are made; none where it may not be opened so. The only
/// error is want of memory.
pub fn seen_over(
    alloc: Global,
    over: Over,
    shape: &Shape,
    steps: &[Step],
) -> Result<Option<Seen>, Memory> {
    match over {
        Over::Copies => copied(alloc, shape, steps),
        Over::Frames => counted(alloc, shape, steps),
    }
}
