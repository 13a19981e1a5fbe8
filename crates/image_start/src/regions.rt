//! The pages with a permission, as regions.

ghost use Rattle.std.specs.Prelude.{◌≡◌, ℕ, ◌<◌, IfOk};
ghost use Rattle.image_model.specs.Pages.{page_limit};
ghost use Rattle.image_model.specs.StartOf as model;
ghost use Rattle.image_start.specs.Runs.{IsRun};

use crate::changes::{next_change, page_permission};
use crate::page_span::PAGE_LIMIT;
use image_model::{Region, Segment, one_regions};
use std::alloc::{AllocError, Global};

/// The page up to which all from the given one on may be used in the same ways, and which
/// itself may not, or the limit.
fn run_end(segments: &[Segment], stack: u64, page: u64) -> u64
    requires { page < page_limit }
    ensures { IsRun (model.page_permission segments.now stack) page result }
{
    let permission = page_permission(segments, stack, page);
    let mut end = next_change(segments, stack, page);
    'run: while end < PAGE_LIMIT && page_permission(segments, stack, end).is(permission) {
        end = next_change(segments, stack, end);
    }
    end
}

/// What may be done with which pages, in rising order. Neighbouring pages that may be used in
/// the same ways are one region.
pub fn regions(alloc: Global, segments: &[Segment], stack: u64) -> Result<Vec<Region>, AllocError>
    ensures { IfOk result (λ regions. regions.items
        ≡ model.regions_of (model.page_permission segments.now stack) 0 page_limit) }
{
    one_regions();
    let mut regions = Vec::new(alloc);
    let mut page = 0;
    'regions: while page < PAGE_LIMIT {
        let end = run_end(segments, stack, page);
        let permission = page_permission(segments, stack, page);
        if permission.is_some() {
            regions.push(Region {
                page,
                count: end - page,
                r: permission.readable,
                w: permission.writable,
                x: permission.executable,
            })?;
        }
        page = end;
    }
    Ok(regions)
}
