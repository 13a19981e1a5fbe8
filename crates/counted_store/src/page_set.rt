//! Sets of pages, as lists of what has a number.

ghost use Rattle.std.specs.Prelude.{◌≡◌, ◌&&◌, nat_le, nat_lt, List, ℕ};
ghost use Rattle.std.specs.List.{list_any};
ghost use Rattle.counted_space.specs.Marks as model;

use space_api::PageBytes;

/// A set of pages.
pub trait PageSet {
    /// The numbers of its pages.
    ghost numbers: { Self → List ℕ };

    /// Whether it has a page from `first` on, and below `end`.
    fn has_between(&self, first: u64, end: u64) -> bool
        ensures { result ≡ model.has_between (numbers self.now) first end };
}

/// Pages by their numbers.
#[derive(Clone, Copy)]
pub struct Numbers<'a> {
    pub list: &'a [u64],
}

impl PageSet for Numbers<'_> {
    ghost numbers = { λ set. set.list.now };

    fn has_between(&self, first: u64, end: u64) -> bool {
        self.list.iter().any(|page| first <= *page && *page < end)
    }
}

/// Pages with their bytes.
#[derive(Clone, Copy)]
pub struct Filled<'a> {
    pub list: &'a [PageBytes],
}

/// Whether a page from `first` on, and below `end`, is listed.
fn any_between(list: &[PageBytes], first: u64, end: u64) -> bool
    ensures { result ≡ list_any (λ p. nat_le first p.page && nat_lt p.page end) list.now }
{
    list.iter()
        .any(|page| first <= page.page && page.page < end)
}

impl PageSet for Filled<'_> {
    ghost use Rattle.std.specs.Prelude.{map};

    ghost numbers = { λ set. map (λ page. page.page) set.list.now };

    fn has_between(&self, first: u64, end: u64) -> bool {
        any_between(self.list, first, end)
    }
}
