//! Which pages of a space were written.

ghost use Rattle.std.specs.Prelude.{◌≡◌};
ghost use Rattle.std.specs.List.{count_by};
ghost use Rattle.image_model.specs.Pages.{page_limit};
ghost use Rattle.machine_model.specs.Machine.{count_below};
ghost use Rattle.plain_space.specs.Marks as model;

use crate::page::Page;
use crate::pages::Pages;

/// Programs and their stacks lie on the pages below this one.
const PAGE_LIMIT: u64 = 1 << 26;

/// Whether the page is one of a program's that was written.
fn is_marked(page: &Page) -> bool
    ensures { result ≡ model.is_marked page.now }
{
    page.written && page.number < PAGE_LIMIT
}

/// How many of the pages are a program's that were written.
fn marked(pages: &[Page]) -> usize
    ensures { result ≡ count_by model.is_marked pages.now }
{
    pages.iter().filter(|page| is_marked(page)).count()
}

impl Pages {
    ghost use Rattle.plain_space.specs.Space.{IsSound, flat_in};

    /// How many pages of a program were written.
    pub fn count_marks(&self) -> u32
        requires { IsSound self.now }
        ensures { result ≡ count_below (flat_in self.now).written page_limit }
    {
        marked(&self.list) as u32
    }
}
