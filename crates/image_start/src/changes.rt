//! What may be done with the pages of an image and a stack, and up to which page it stays so.

ghost use Rattle.std.specs.Prelude.{◌≡◌, ℕ, ◌<◌, ◌≤◌};
ghost use Rattle.image_model.specs.Pages.{page_limit};
ghost use Rattle.image_model.specs.StartOf as model;
ghost use Rattle.image_start.specs.Permission.{permission_of};

use crate::page_span::{PAGE_LIMIT, PageSpan};
use crate::permission::{NO_PERMISSION, Permission, STACK_PERMISSION};
use image_model::Segment;

/// What the segments with a byte on the page allow, joined.
fn segments_permission(segments: &[Segment], page: u64) -> Permission
    requires { page < page_limit }
    ensures { permission_of result ≡ model.segments_permission segments.now page }
{
    match segments {
        [] => NO_PERMISSION,
        [first, rest @ ..] => {
            let others = segments_permission(rest, page);
            if PageSpan::of_bytes(first.at, first.size).has(page) {
                Permission::of_flags(first.flags).joined(others)
            } else {
                others
            }
        }
    }
}

/// What may be done with the page.
pub fn page_permission(segments: &[Segment], stack: u64, page: u64) -> Permission
    requires { page < page_limit }
    ensures { permission_of result ≡ model.page_permission segments.now stack page }
{
    let permission = segments_permission(segments, page);
    if PageSpan::of_stack(stack).has(page) {
        STACK_PERMISSION.joined(permission)
    } else {
        permission
    }
}

/// A page above the one given up to which the segments allow the same.
fn next_segments_change(segments: &[Segment], page: u64) -> u64
    requires { page < page_limit }
    ensures later { page < result }
    ensures within { result ≤ page_limit }
    ensures same { (q : ℕ) → page ≤ q → q < result
        → model.segments_permission segments.now q ≡ model.segments_permission segments.now page }
{
    match segments {
        [] => PAGE_LIMIT,
        [first, rest @ ..] => {
            let others = next_segments_change(rest, page);
            PageSpan::of_bytes(first.at, first.size)
                .next_change(page)
                .min(others)
        }
    }
}

/// A page above the one given up to which all pages may be used in the same ways. It is the
/// least at which the pages of a segment or of the stack begin or end, or the limit.
pub fn next_change(segments: &[Segment], stack: u64, page: u64) -> u64
    requires { page < page_limit }
    ensures later { page < result }
    ensures within { result ≤ page_limit }
    ensures same { (q : ℕ) → page ≤ q → q < result
        → model.page_permission segments.now stack q
        ≡ model.page_permission segments.now stack page }
{
    let others = next_segments_change(segments, page);
    PageSpan::of_stack(stack).next_change(page).min(others)
}
