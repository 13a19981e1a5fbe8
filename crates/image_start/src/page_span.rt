//! Neighbouring pages: those of a segment, of its file bytes, or of the stack.

ghost use Rattle.std.specs.Prelude.{◌≡◌, ℕ, ◌<◌, ◌≤◌, false, true};
ghost use Rattle.image_model.specs.Pages.{page_limit};
ghost use Rattle.image_model.specs.StartOf as model;

use image_model::PAGE_SIZE;

/// The page after the last one on which a program or its stack may lie.
pub const PAGE_LIMIT: u64 = 1 << 26;

/// The address after the stack.
const STACK_END: u64 = PAGE_LIMIT * PAGE_SIZE;

/// Neighbouring pages by their numbers, from the first on up to before the end. There are none
/// where the end isn't above the first.
#[derive(Clone, Copy, Debug, PartialEq, Eq)]
pub struct PageSpan {
    first: u64,
    end: u64,
}

impl PageSpan {
    ghost use Rattle.image_start.specs.PageSpan.{has};

    /// The pages below the limit that have one of `size` bytes from the address on.
    pub fn of_bytes(at: u64, size: u64) -> PageSpan
        ensures { (page : ℕ) → page < page_limit → has result page ≡ model.is_on_page at size page }
    {
        if size == 0 {
            return PageSpan { first: 0, end: 0 };
        }
        PageSpan {
            first: at / PAGE_SIZE,
            end: at.saturating_add(size - 1) / PAGE_SIZE + 1,
        }
    }

    /// The pages of a stack of so many bytes.
    pub fn of_stack(stack: u64) -> PageSpan
        ensures { (page : ℕ) → page < page_limit
            → has result page ≡ model.is_stack_page stack page }
    {
        PageSpan {
            first: (STACK_END.saturating_sub(stack) + (PAGE_SIZE - 1)) / PAGE_SIZE,
            end: PAGE_LIMIT,
        }
    }

    /// Whether the page is among them.
    pub fn has(self, page: u64) -> bool
        ensures { result ≡ has self page }
    {
        self.first <= page && page < self.end
    }

    /// A page above the one given up to which all are among them or none is. It is the least
    /// above which that changes, or the limit.
    pub fn next_change(self, page: u64) -> u64
        requires { page < page_limit }
        ensures later { page < result }
        ensures within { result ≤ page_limit }
        ensures same { (q : ℕ) → page ≤ q → q < result → has self q ≡ has self page }
    {
        if page < self.first {
            self.first.min(PAGE_LIMIT)
        } else if page < self.end {
            self.end.min(PAGE_LIMIT)
        } else {
            PAGE_LIMIT
        }
    }

    /// The first of them from the page on, or the limit where there is none below it.
    pub fn next_page(self, page: u64) -> u64
        requires { page ≤ page_limit }
        ensures from { page ≤ result }
        ensures within { result ≤ page_limit }
        ensures none { (q : ℕ) → page ≤ q → q < result → has self q ≡ false }
        ensures some { result < page_limit → has self result ≡ true }
    {
        let next = self.first.max(page);
        if next < self.end {
            next.min(PAGE_LIMIT)
        } else {
            PAGE_LIMIT
        }
    }
}
