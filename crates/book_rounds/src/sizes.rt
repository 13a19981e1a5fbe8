//! What may be asked of a book with given sizes.

ghost use Rattle.std.specs.Prelude.{◌≡◌, ◌<◌, ◌≤◌, ◌+◌, IsTrue, true, length, IfOk};
ghost use Rattle.journal_model.specs.Legal as legal;
ghost use Rattle.journal_model.specs.State.{stack_of};

use journal_model::Sizes;
use machine_model::Memory;
use space_api::Given;
use std::alloc::Global;

/// The most requests that a context serves.
const MOST_SERVED: usize = 65_536;

/// True only where there is a function of that number.
pub fn has_function(sizes: &Sizes, f: u16) -> bool
    ensures { IsTrue result → f < length sizes.now.stacks }
{
    usize::from(f) < sizes.stacks.len()
}

/// True only where the clock may show this.
pub fn is_clock(sizes: &Sizes, t: u64) -> bool
    ensures { IsTrue result → legal.is_clock sizes.now.clock t ≡ true }
{
    match sizes.clock {
        None => true,
        Some(at) => t == at,
    }
}

/// True only where a context may idle that served these requests and one more.
pub fn may_rest(sizes: &Sizes, served: &[Given]) -> bool
    ensures room { IsTrue result → 1 ≤ sizes.now.idle }
    ensures usable { IsTrue result → length served.now + 1 < sizes.now.uses }
    ensures few { IsTrue result → length served.now + 1 ≤ 65536 }
{
    let count = served.len();
    sizes.idle >= 1 && count < MOST_SERVED && count + 1 < sizes.uses as usize
}

/// The layers of a function, from the lowest up; a number that is no function has none. The only
/// error is want of memory.
#[tactic(auto, unfolding(journal_model::specs::State::stack_of))]
pub fn layers_of(alloc: Global, sizes: &Sizes, f: u16) -> Result<Vec<u16>, Memory>
    ensures { IfOk result (λ layers. layers.items ≡ stack_of sizes.now f) }
{
    let Some(stack) = sizes.stacks.get(usize::from(f)) else {
        return Ok(Vec::new(alloc));
    };
    match stack.layers().to_vec(alloc) {
        Ok(layers) => Ok(layers),
        Err(_) => Err(Memory),
    }
}
