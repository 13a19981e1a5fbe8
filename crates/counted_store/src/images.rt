//! The frames of images.

ghost use Rattle.std.specs.Prelude.{◌≡◌, ◌+◌};
ghost use Rattle.image_model.specs.Layout.{ArePages};
ghost use Rattle.space_api.specs.Frames.{frames_of};
ghost use Rattle.space_api.specs.Stores.{lists_page};

use crate::marks::page_need;
use crate::page_set::Filled;
use space_api::PageBytes;

/// How many frames an image of these pages takes: the pages, the tables in which they stand, and
/// the root.
pub fn image_need(pages: &[PageBytes]) -> u64
    requires { ArePages 0 pages.now }
    ensures { result ≡ frames_of (lists_page pages.now) + 1 }
{
    let mut need = 1;
    for i in 0..pages.len() {
        let before = Filled { list: &pages[..i] };
        let page = pages[i].page;
        need += u64::from(page_need(&before, page, page));
    }
    need
}
