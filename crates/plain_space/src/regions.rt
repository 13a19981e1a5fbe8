//! What regions allow.

ghost use Rattle.std.specs.Prelude.{◌≡◌};
ghost use Rattle.image_model.specs.Permission as model;
ghost use Rattle.plain_space.specs.Pages.{permission_of};

use crate::page::Flags;
use image_model::Region;

/// Whether the page is one of the region's.
fn has_page(region: &Region, page: u64) -> bool
    ensures { result ≡ model.has_page region.now page }
{
    region.page <= page && page - region.page < region.count
}

/// What may be done with the page: what its region allows, and nothing outside all regions.
pub fn flags_in(regions: &[Region], page: u64) -> Flags
    ensures { permission_of result ≡ model.permission_in regions.now page }
{
    match regions {
        [] => Flags {
            r: false,
            w: false,
            x: false,
        },
        [first, rest @ ..] => {
            if has_page(first, page) {
                Flags {
                    r: first.r,
                    w: first.w,
                    x: first.x,
                }
            } else {
                flags_in(rest, page)
            }
        }
    }
}
