//! The frames that pages take.

ghost use Rattle.std.specs.Prelude.{◌≡◌, ℕ, ◌+◌, ◌-◌, ◌*◌, ◌/◌, ◌^◌, ◌≤◌, ◌<◌, IfOk};
ghost use Rattle.image_model.specs.Pages.{page_limit};
ghost use Rattle.space_api.specs.Frames.{some_written, frames_of};
ghost use Rattle.space_laws.specs.Growth as growth;
ghost use Rattle.space_laws.specs.Growth.{with_pages, page_need};
ghost use Rattle.counted_space.specs.Marks.{is_marked};

use crate::page_set::{Numbers, PageSet};
use std::alloc::{AllocError, Global};

/// How many pages have a table of 2^21 bytes.
const SMALL_SPAN: u64 = 512;

/// How many pages have a table of 2^30 bytes.
const LARGE_SPAN: u64 = 262_144;

/// Whether the page stands in a span of `size` pages that has a page: one of the set, or one from
/// `first` on that comes before the page.
fn has_span<P: PageSet>(pages: &P, first: u64, page: u64, size: u64) -> bool
    requires order { first ≤ page }
    requires below { page < page_limit }
    requires some { 0 < size }
    requires fits { size ≤ 2 ^ 18 }
    ensures { result ≡ some_written
        (with_pages first (page - first) (is_marked (P.numbers pages.now)))
        (page / size * size) size }
{
    let start = page / size * size;
    let listed = pages.has_between(start, start + size);
    listed || (first < page && start < page)
}

/// One frame, unless it is there.
fn none_yet(there: bool) -> u32
    ensures { result ≡ growth.none_yet there }
{
    if there { 0 } else { 1 }
}

/// How many frames a page takes after those from `first` on.
pub fn page_need<P: PageSet>(pages: &P, first: u64, page: u64) -> u32
    requires order { first ≤ page }
    requires below { page < page_limit }
    ensures need { result ≡ page_need
        (with_pages first (page - first) (is_marked (P.numbers pages.now))) page }
    ensures few { result ≤ 3 }
{
    none_yet(has_span(pages, first, page, 1))
        + none_yet(has_span(pages, first, page, SMALL_SPAN))
        + none_yet(has_span(pages, first, page, LARGE_SPAN))
}

/// How many frames the pages from `first` up to `end` take, of at most 16.
pub fn row_need(pages: &[u64], first: u64, end: u64) -> u32
    requires order { first ≤ end }
    requires below { end ≤ page_limit }
    requires few { end ≤ first + 16 }
    ensures { result + frames_of (is_marked pages.now)
        ≡ frames_of (with_pages first (end - first) (is_marked pages.now)) }
{
    let set = Numbers { list: pages };
    let mut need = 0;
    for page in first..end {
        need += page_need(&set, first, page);
    }
    need
}

/// The list with the pages from `first` up to `end`.
pub fn with_row(alloc: Global, pages: &[u64], first: u64, end: u64) -> Result<Vec<u64>, AllocError>
    requires { first ≤ end }
    ensures { IfOk result (λ all. (page : ℕ) → is_marked all.items page
        ≡ with_pages first (end - first) (is_marked pages.now) page) }
{
    let mut all = Vec::from_slice(alloc, pages)?;
    for page in first..end {
        let set = Numbers { list: &all };
        if !set.has_between(page, page + 1) {
            all.push(page)?;
        }
    }
    Ok(all)
}
