//! Captures and deploys of a space of many pages, over any store that takes no frames.

ghost use Rattle.std.specs.Prelude.{◌≡◌, ◌<◌, ◌≤◌, true, false, length, IfOk, None};

use crate::problem::Problem;
use crate::words::number;
use plain_space::{PlainShelf, PlainStore};
use space_api::{Captured, PAGE_SIZE, Region, Space, Start, Store};
use std::alloc::{AllocError, Global};
use std::slice;

/// The number of the first page.
const FIRST_PAGE: u64 = 16;

/// The most pages.
const MOST_PAGES: u64 = 65_536;

/// What is done with the space, again and again.
#[derive(Clone, Copy, Debug, PartialEq, Eq)]
pub enum CopyKind {
    Capture,
    Deploy,
}

impl CopyKind {
    /// The kind of a name.
    fn named(name: &str) -> Option<CopyKind> {
        match name {
            "capture" => Some(CopyKind::Capture),
            "deploy" => Some(CopyKind::Deploy),
            _ => None,
        }
    }
}

/// A start of so many pages that may be read and written, with no byte in any.
fn start_of(alloc: Global, pages: u64) -> Result<Start, AllocError>
    requires some { 0 < pages }
    requires most { pages ≤ MOST_PAGES }
{
    let region = Region {
        page: FIRST_PAGE,
        count: pages,
        r: true,
        w: true,
        x: false,
    };
    let regions = vec![in alloc; region]?;
    Ok(Start::new(FIRST_PAGE * PAGE_SIZE, regions, Vec::new(alloc)))
}

/// Writes a word in each page, at each place of a page in turn.
fn write_pages<S: Space>(space: &mut S, pages: u64) -> Result<(), Problem>
    requires finished { S.finished space.old ≡ true }
    requires most { pages ≤ MOST_PAGES }
    ensures { S.finished space.new ≡ true }
{
    'pages: for number in 0..pages {
        let at = (FIRST_PAGE + number) * PAGE_SIZE + number * 8 % PAGE_SIZE;
        if space.store(at, 8, u64::MAX).is_err() {
            return Err(Problem::Memory);
        }
    }
    Ok(())
}

/// A space of the first start with so many pages, all of which were written.
fn filled<T: Store>(
    alloc: Global,
    store: &T,
    shelf: &mut T::Shelf,
    pages: u64,
) -> Result<T::Space, Problem>
    requires plain { T.Space.takes_frames ≡ false }
    requires within { 0 < length (T.starts store.now) }
    requires most { pages ≤ MOST_PAGES }
    ensures { IfOk result (λ space. T.Space.finished space ≡ true) }
{
    let Ok(mut image) = store.open_image(alloc, shelf, 0) else {
        return Err(Problem::Memory);
    };
    let Ok(mut space) = store.deploy(alloc, &mut image, shelf) else {
        return Err(Problem::Memory);
    };
    store.finish_deploy(&mut space);
    write_pages(&mut space, pages)?;
    Ok(space)
}

/// What was captured of a space, which goes on.
fn captured<T: Store>(
    alloc: Global,
    store: &T,
    space: T::Space,
) -> Result<(T::Frozen, T::Space), Problem>
    requires plain { T.Space.takes_frames ≡ false }
    requires finished { T.Space.finished space ≡ true }
    ensures space { IfOk result (λ r. T.Space.finished r.1 ≡ true) }
    ensures frozen { IfOk result (λ r. T.Frozen.pin r.0 ≡ None) }
{
    match store.capture(alloc, space) {
        Captured::Done { frozen, space, .. } => Ok((frozen, space)),
        Captured::NeedFrames(_) => Err(Problem::Memory),
        Captured::Memory(_) => Err(Problem::Memory),
    }
}

/// Captures a space so many times, and answers what its first page then holds.
fn capture_often<T: Store>(
    alloc: Global,
    store: &T,
    space: T::Space,
    rounds: u64,
) -> Result<u64, Problem>
    requires plain { T.Space.takes_frames ≡ false }
    requires finished { T.Space.finished space ≡ true }
{
    let mut space = space;
    'rounds: for _ in 0..rounds {
        let (_, next) = captured(alloc, store, space)?;
        space = next;
    }
    Ok(first_word(&mut space))
}

/// Deploys what was captured of a space so many times, and answers what the first pages held.
fn deploy_often<T: Store>(
    alloc: Global,
    store: &T,
    shelf: &mut T::Shelf,
    space: T::Space,
    rounds: u64,
) -> Result<u64, Problem>
    requires plain { T.Space.takes_frames ≡ false }
    requires finished { T.Space.finished space ≡ true }
{
    let (mut frozen, mut space) = captured(alloc, store, space)?;
    let mut seen = first_word(&mut space);
    'rounds: for _ in 0..rounds {
        let Ok(mut next) = store.deploy(alloc, &mut frozen, shelf) else {
            return Err(Problem::Memory);
        };
        store.finish_deploy(&mut next);
        seen ^= first_word(&mut next);
    }
    Ok(seen)
}

/// The first word of the first page.
fn first_word<S: Space>(space: &mut S) -> u64
    requires { S.finished space.old ≡ true }
{
    space.load(FIRST_PAGE * PAGE_SIZE, 8).unwrap_or(0)
}

/// Writes so many pages of a space, and then captures it or deploys what was captured so many
/// times. Answers what the pages held.
pub fn copies_part(alloc: Global, name: &str, pages: &str, rounds: &str) -> Result<u64, Problem> {
    let Some(kind) = CopyKind::named(name) else {
        return Err(Problem::Words);
    };
    let pages = number(pages)?;
    let rounds = number(rounds)?;
    if pages == 0 || pages > MOST_PAGES {
        return Err(Problem::Words);
    }
    let start = start_of(alloc, pages)?;
    let store = PlainStore::open(slice::from_ref(&start))?;
    let mut shelf = PlainShelf::new(0);
    let space = filled(alloc, &store, &mut shelf, pages)?;
    match kind {
        CopyKind::Capture => capture_often(alloc, &store, space, rounds),
        CopyKind::Deploy => deploy_often(alloc, &store, &mut shelf, space, rounds),
    }
}
