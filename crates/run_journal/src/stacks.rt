//! The layers of functions.

ghost use Rattle.std.specs.Prelude.{◌≡◌, Some, None};
ghost use Rattle.journal_model.specs.Legal as legal;
ghost use Rattle.journal_model.specs.State as model;

use crate::recent::Recent;
use journal_model::{How, Sizes};

/// The layers of a function, from the lowest up; a number that is no function has none.
#[tactic(auto, unfolding(journal_model::specs::State::stack_of))]
pub fn stack_of(sizes: &Sizes, f: u16) -> &[u16]
    ensures { result.now ≡ model.stack_of sizes.now f }
{
    match sizes.stacks.get(f as usize) {
        Some(stack) => stack.layers(),
        None => &[],
    }
}

/// The layer directly above a layer of a stack.
#[tactic(auto, unfolding(journal_model::specs::State::layer_above))]
fn next_above(layer: u16, stack: &[u16]) -> Option<u16>
    ensures { result ≡ model.layer_above (Some layer) stack.now }
{
    match stack {
        [] => None,
        [first, rest @ ..] => {
            if *first == layer {
                rest.first().copied()
            } else {
                next_above(layer, rest)
            }
        }
    }
}

/// The layer directly above a place of a stack, which is a layer or the image below them all.
#[tactic(auto, unfolding(journal_model::specs::State::layer_above))]
pub fn layer_above(place: Option<u16>, stack: &[u16]) -> Option<u16>
    ensures { result ≡ model.layer_above place stack.now }
{
    match place {
        None => stack.first().copied(),
        Some(layer) => next_above(layer, stack),
    }
}

/// The highest of the layers that is kept.
#[tactic(auto, unfolding(journal_model::specs::State::highest_kept))]
pub fn highest_kept(kept: &Recent, stack: &[u16]) -> Option<u16>
    ensures { result ≡ model.highest_kept kept.now stack.now }
{
    match stack {
        [] => None,
        [first, rest @ ..] => match highest_kept(kept, rest) {
            Some(layer) => Some(layer),
            None => {
                if kept.contains(u32::from(*first)) {
                    Some(*first)
                } else {
                    None
                }
            }
        },
    }
}

/// Whether two places of a stack are the same.
pub fn same_place(a: Option<u16>, b: Option<u16>) -> bool
    ensures { result ≡ legal.same_place a b }
{
    match (a, b) {
        (None, None) => true,
        (None, Some(_)) | (Some(_), None) => false,
        (Some(j), Some(k)) => j == k,
    }
}

/// Whether a deploy from this place is warm or cold.
pub fn deployed_how(stack: &[u16], place: Option<u16>) -> How
    ensures { result ≡ legal.deployed_how stack.now place }
{
    match place {
        None => How::Cold,
        Some(layer) => match stack.last() {
            Some(last) if *last == layer => How::Warm,
            Some(_) | None => How::Cold,
        },
    }
}
