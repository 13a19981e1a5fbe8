//! Whether a book may have given sizes.

ghost use Rattle.std.specs.Prelude.{◌≡◌, IsTrue, nat_eq, false};
ghost use Rattle.std.specs.List.{AllByRecursion};
ghost use Rattle.book_model.specs.Kept.{IsOpenable};
ghost use Rattle.book_core_tests.specs.Fits.{AreFit, AreFew, AreApart};

use journal_model::{FunctionStack, Sizes};

/// The most requests of a book.
const MOST_REQUESTS: u32 = 4096;

/// The most frames of a book.
const MOST_FRAMES: u32 = 131_072;

/// True only where the number isn't among these.
fn is_other(layer: u16, others: &[u16]) -> bool
    ensures { IsTrue result → AllByRecursion (λ y. nat_eq layer y ≡ false) others.now }
{
    match others {
        [] => true,
        [first, rest @ ..] => layer != *first && is_other(layer, rest),
    }
}

/// True only where no number stands twice.
fn are_distinct(layers: &[u16]) -> bool
    ensures { IsTrue result → AreApart layers.now }
{
    match layers {
        [] => true,
        [first, rest @ ..] => is_other(*first, rest) && are_distinct(rest),
    }
}

/// True only where no layer stands twice in a stack, and each stack's start is an image.
fn are_fit(stacks: &[FunctionStack], images: usize) -> bool
    ensures { IsTrue result → AreFit images stacks.now }
{
    match stacks {
        [] => true,
        [first, rest @ ..] => {
            usize::from(first.start) < images
                && are_distinct(first.layers())
                && are_fit(rest, images)
        }
    }
}

/// True only where there is room for a layer, and frames and requests are few.
fn are_few(sizes: &Sizes) -> bool
    ensures { IsTrue result → AreFew sizes.now }
{
    sizes.layers >= 1
        && sizes.root <= 1
        && sizes.requests <= MOST_REQUESTS
        && sizes.frames <= MOST_FRAMES
}

/// True only where a book may be opened with these sizes and so many images.
pub(crate) fn is_openable(sizes: &Sizes, images: usize) -> bool
    ensures { IsTrue result → IsOpenable sizes.now images }
{
    let few = are_few(sizes);
    if !few {
        return false;
    }
    are_fit(sizes.stacks.as_slice(), images)
}
