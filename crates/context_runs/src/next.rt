//! Which layer a context has to climb next.

ghost use Rattle.std.specs.Prelude.{◌≡◌, ◌≢◌, true, None, Some, IfSome, MatchOption};
ghost use Rattle.journal_model.specs.State.{layer_above};
ghost use Rattle.context_runs.specs.OfLayers.{IsOnStack, IsTop, StandsAbove};

use context_uc::Context;
use space_api::{Parked, Space};

/// The layer directly above a layer of a stack; none where there is none above, or no such layer.
#[tactic(auto, unfolding(journal_model::specs::State::layer_above))]
fn above_layer(number: u16, stack: &[u16]) -> Option<u16>
    ensures { result ≡ layer_above (Some number) stack.now }
{
    match stack {
        [] => None,
        [first, rest @ ..] => {
            if *first == number {
                rest.first().copied()
            } else {
                above_layer(number, rest)
            }
        }
    }
}

/// The layer directly above a place of a stack, a layer of it or the image.
#[tactic(auto, unfolding(journal_model::specs::State::layer_above))]
fn above_place(place: Option<u16>, stack: &[u16]) -> Option<u16>
    ensures { result ≡ layer_above place stack.now }
{
    match place {
        Some(number) => above_layer(number, stack),
        None => stack.first().copied(),
    }
}

/// The layer directly above a place of a stack; none above the function's own layer.
fn next_above(place: Option<u16>, own: u16, stack: &[u16]) -> Option<u16>
    ensures own { place ≡ Some own → result ≡ None }
    ensures other { place ≢ Some own → result ≡ layer_above place stack.now }
{
    if place == Some(own) {
        return None;
    }
    above_place(place, stack)
}

/// The number of the layer directly above a context in its function's stack; none exactly where
/// the context stands at its function's own layer.
pub fn next_layer<'a, S: Space>(context: &Context<'a, S>) -> Option<u16>
    requires still { context.now.still ≡ true }
    requires on_stack { IsOnStack context.now.plan context.now.function context.now.layer }
    ensures next { MatchOption result
        (IsTop context.now.plan context.now.function context.now.layer)
        (λ number. StandsAbove context.now.plan context.now.function context.now.layer number) }
    ensures on_stack { IfSome result
        (λ number. IsOnStack context.now.plan context.now.function (Some number)) }
{
    context.is_the_model();
    let plan = context.plan();
    plan.is_sound();
    let function = context.function();
    let own = plan.functions()[usize::from(function)].layer;
    next_above(context.layer(), own, plan.stack(function))
}
