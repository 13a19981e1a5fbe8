//! The pages with a permission and a file byte.

ghost use Rattle.std.specs.Prelude.{◌≡◌, ℕ, ◌<◌, ◌≤◌, false, true, IfOk};
ghost use Rattle.image_model.specs.Pages.{page_limit};
ghost use Rattle.image_model.specs.StartOf as model;

use crate::changes::page_permission;
use crate::page_bytes::page_bytes;
use crate::page_span::{PAGE_LIMIT, PageSpan};
use image_model::{PageBytes, Segment};
use std::alloc::{AllocError, Global};

/// The first page from the given one on that has a file byte of a segment, or the limit where
/// there is none below it.
fn next_file_page(segments: &[Segment], page: u64) -> u64
    requires { page ≤ page_limit }
    ensures from { page ≤ result }
    ensures within { result ≤ page_limit }
    ensures none { (q : ℕ) → page ≤ q → q < result → model.has_file_byte segments.now q ≡ false }
    ensures some { result < page_limit → model.has_file_byte segments.now result ≡ true }
{
    match segments {
        [] => PAGE_LIMIT,
        [first, rest @ ..] => {
            let others = next_file_page(rest, page);
            let size = first.bytes.as_slice().len() as u64;
            PageSpan::of_bytes(first.at, size)
                .next_page(page)
                .min(others)
        }
    }
}

/// The pages with a permission and a file byte of a segment, in rising order.
pub fn pages(alloc: Global, segments: &[Segment], stack: u64) -> Result<Vec<PageBytes>, AllocError>
    ensures { IfOk result (λ pages. pages.items
        ≡ model.pages_of segments.now (model.page_permission segments.now stack) 0 page_limit) }
{
    let mut pages = Vec::new(alloc);
    let mut page = next_file_page(segments, 0);
    'pages: while page < PAGE_LIMIT {
        if page_permission(segments, stack, page).is_some() {
            let bytes = page_bytes(alloc, segments, page)?;
            pages.push(PageBytes { page, bytes })?;
        }
        page = next_file_page(segments, page + 1);
    }
    Ok(pages)
}
