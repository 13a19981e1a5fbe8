//! Copies of a start's pages.

ghost use Rattle.std.specs.Prelude.{IfOk};
ghost use Rattle.plain_space.specs.Copies.{IsCopy, AreCopies};

use crate::page::Page;
use crate::regions::flags_in;
use image_model::{PageBytes, Region};
use std::alloc::{AllocError, Global};

/// A copy of a page, which wasn't written.
fn copy_page(alloc: Global, regions: &[Region], page: &PageBytes) -> Result<Page, AllocError>
    ensures { IfOk result (IsCopy regions.now page.now) }
{
    let bytes = Vec::from_slice(alloc, page.bytes.as_slice())?;
    Ok(Page {
        number: page.page,
        flags: flags_in(regions, page.page),
        written: false,
        bytes,
    })
}

/// Copies of all pages.
pub fn copy_pages(
    alloc: Global,
    regions: &[Region],
    pages: &[PageBytes],
) -> Result<Vec<Page>, AllocError>
    ensures { IfOk result (λ list. AreCopies regions.now pages.now list.items) }
{
    let mut list = Vec::new(alloc);
    'pages: for page in pages {
        let copy = copy_page(alloc, regions, page)?;
        list.push(copy)?;
    }
    Ok(list)
}
