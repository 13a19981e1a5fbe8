//! Books over copied pages, filled with idle contexts, of which some are taken and parked again
//! and again.

ghost use Rattle.std.specs.Prelude.{◌≡◌, IfOk, length};

use crate::rounds::Rounds;
use book_core::Started;
use book_core_tests::Played;
use journal_model::{FunctionStack, Sizes};
use machine_model::{Memory, Packet};
use plain_space::{PlainShelf, PlainStore};
use space_api::{Given, PAGE_SIZE, Region, Start, Store};
use std::alloc::{AllocError, Global};
use std::slice;

/// How many contexts idle, each of a function of its own.
const CONTEXTS: u16 = 256;

/// How many requests a book has.
const REQUESTS: u32 = 4_096;

/// How many rounds there are in a book once its contexts idle.
const ROUNDS: u16 = 3_840;

/// How many events these rounds append: a start, a take, an answer and a park each.
pub const EVENTS: u64 = 15_360;

/// A start of one page that may be read and written, with no bytes.
fn start(alloc: Global) -> Result<Start, AllocError> {
    let region = Region {
        page: 16,
        count: 1,
        r: true,
        w: true,
        x: false,
    };
    let regions = vec![in alloc; region]?;
    Ok(Start::new(16 * PAGE_SIZE, regions, Vec::new(alloc)))
}

/// As many functions as contexts, on the image, without layers.
fn stacks(alloc: Global) -> Result<Vec<FunctionStack>, Memory> {
    let mut stacks = Vec::new(alloc);
    for _ in 0..CONTEXTS {
        let stack = FunctionStack {
            start: 0,
            layers: Vec::new(alloc),
        };
        if stacks.push(stack).is_err() {
            return Err(Memory);
        }
    }
    Ok(stacks)
}

/// The sizes of a book.
fn sizes(alloc: Global) -> Result<Sizes, Memory>
    ensures { IfOk result (λ sizes. sizes.root ≡ 0) }
{
    Ok(Sizes {
        frames: 0,
        root: 0,
        idle: u32::from(CONTEXTS),
        layers: 1,
        uses: u32::MAX,
        requests: REQUESTS,
        clock: Some(0),
        stacks: stacks(alloc)?,
    })
}

/// A request for a function, with an empty packet.
fn request(alloc: Global, function: u16) -> Result<Started, Memory> {
    let Some(packet) = Packet::new(Vec::new(alloc)) else {
        return Err(Memory);
    };
    Ok(Started {
        function,
        given: Given { packet, clock: 0 },
    })
}

/// A request for each function.
fn requests(alloc: Global) -> Result<Vec<Started>, Memory> {
    let mut requests = Vec::new(alloc);
    for function in 0..CONTEXTS {
        let one = request(alloc, function)?;
        if requests.push(one).is_err() {
            return Err(Memory);
        }
    }
    Ok(requests)
}

/// A round for each function. False where one of them isn't played.
fn fill<T: Store>(rounds: &mut Rounds<T>, store: &T, requests: &[Started]) -> Result<bool, Memory> {
    let mut all = true;
    for one in requests {
        all = rounds.round(store, one)? && all;
    }
    Ok(all)
}

/// Rounds that are spread among the first functions, so many, one after another; none where they
/// are 0. False where one of them isn't played.
fn spread<T: Store>(
    rounds: &mut Rounds<T>,
    store: &T,
    requests: &[Started],
    among: u16,
) -> Result<bool, Memory> {
    let mut all = true;
    for number in 0..ROUNDS {
        let Some(place) = number.checked_rem(among) else {
            return Ok(all);
        };
        let Some(one) = requests.get(usize::from(place)) else {
            return Ok(false);
        };
        all = rounds.round(store, one)? && all;
    }
    Ok(all)
}

/// Plays all rounds of a book, and answers how many events it has; none where one isn't played.
fn play_all<T: Store>(
    rounds: Rounds<T>,
    store: &T,
    requests: &[Started],
    among: u16,
) -> Result<Option<usize>, Memory> {
    let mut rounds = rounds;
    let filled = fill(&mut rounds, store, requests)?;
    let all = spread(&mut rounds, store, requests, among)?;
    if filled && all {
        return Ok(Some(rounds.book.events().len()));
    }
    Ok(None)
}

/// Plays a book, and answers how many events it has; none where it isn't played as it is to be.
fn play(
    alloc: Global,
    starts: &[Start],
    requests: &[Started],
    among: u16,
) -> Result<Option<usize>, Memory>
    requires { length starts.now ≡ 1 }
{
    let store = PlainStore::open(starts)?;
    let sizes = sizes(alloc)?;
    let Some(played) = Played::open(alloc, &store, sizes, PlainShelf::new(0), 1)? else {
        return Ok(None);
    };
    let rounds = Rounds {
        alloc,
        book: played.into_book(),
    };
    play_all(rounds, &store, requests, among)
}

/// Plays so many books, whose rounds are spread among so many contexts, and answers how many events
/// all have; none where one isn't played as it is to be.
pub fn played(alloc: Global, among: u16, books: u64) -> Result<Option<u64>, Memory> {
    let start = start(alloc)?;
    let requests = requests(alloc)?;
    let mut events = 0_u64;
    for _ in 0..books {
        let Some(count) = play(alloc, slice::from_ref(&start), &requests, among)? else {
            return Ok(None);
        };
        events = events.saturating_add(count as u64);
    }
    Ok(Some(events))
}
