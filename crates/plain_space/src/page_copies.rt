//! Copies of pages, which weren't written.

ghost use Rattle.std.specs.Prelude.{◌≡◌, ◌==◌, IfOk};
ghost use Rattle.std.specs.List.{list_all, filter};
ghost use Rattle.plain_space.specs.PageCopies as model;
ghost use Rattle.plain_space.specs.PageCopies.{IsCopyOf, AreCopiesOf};

use crate::page::Page;
use std::alloc::{AllocError, Global};

/// Whether all of the bytes are 0.
fn are_zeros(bytes: &[u8]) -> bool
    ensures { result ≡ list_all (λ byte. byte == 0) bytes.now }
{
    let mut most = 0;
    'bytes: for byte in bytes {
        most = most.max(*byte);
    }
    most == 0
}

/// Whether the page has a byte that isn't 0.
fn holds_bytes(page: &Page) -> bool
    ensures { result ≡ model.holds_bytes page.now }
{
    !are_zeros(&page.bytes)
}

/// A copy of a page.
fn copy_page(alloc: Global, page: &Page) -> Result<Page, AllocError>
    ensures { IfOk result (IsCopyOf page.now) }
{
    let bytes = Vec::from_slice(alloc, &page.bytes)?;
    Ok(Page {
        number: page.number,
        flags: page.flags,
        written: false,
        bytes,
    })
}

/// Copies of all pages.
pub fn copy_all(alloc: Global, pages: &[Page]) -> Result<Vec<Page>, AllocError>
    ensures { IfOk result (λ list. AreCopiesOf pages.now list.items) }
{
    let mut list = Vec::with_capacity(alloc, pages.len())?;
    'pages: for page in pages {
        list.push(copy_page(alloc, page)?)?;
    }
    Ok(list)
}

/// Copies of the pages that hold bytes other than 0.
pub fn copy_held(alloc: Global, pages: &[Page]) -> Result<Vec<Page>, AllocError>
    ensures { IfOk result (λ list. AreCopiesOf (filter model.holds_bytes pages.now) list.items) }
{
    let mut list = Vec::new(alloc);
    'pages: for page in pages {
        if holds_bytes(page) {
            list.push(copy_page(alloc, page)?)?;
        }
    }
    Ok(list)
}
