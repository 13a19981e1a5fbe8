//! Captures of contexts, and their ends.

ghost use Rattle.std.specs.Prelude.{◌≡◌, ◌+◌, ◌<◌, ◌≤◌, true, None, length};
ghost use Rattle.space_api.specs.Holding.{if_taken, holding_of};
ghost use Rattle.space_api.specs.Stores.{frozen_of, spaced_of};
ghost use Rattle.context_uc.specs.Runs.{HasReached};
ghost use Rattle.context_uc.specs.Takes.{Takes};

use crate::context::Context;
use crate::layer::Layer;
use space_api::{Captured, Store};
use std::alloc::Global;

/// How a capture of a context ends.
#[derive(Drop)]
pub enum Taken<L, C> {
    /// The layer, and the context, which goes on above it. So many pages were written in the
    /// layer's run.
    Done { layer: L, context: C, pages: u32 },
    /// The space has no spare, and a capture takes one. The context is as it was.
    NeedFrames(C),
    /// Memory ran out. The context is as it was.
    Memory(C),
}

/// Takes the layer of the number from a context whose run came to the layer's trigger.
pub fn capture<'a, T: Store>(
    alloc: Global,
    store: &T,
    context: Context<'a, T::Space>,
    number: u16,
) -> Taken<Layer<'a, T::Frozen>, Context<'a, T::Space>>
    requires reached { HasReached context (T.Space.flat context.space) number }
    requires loose { T.Space.pin context.space ≡ None }
    ensures { Takes T.Space.takes_frames T.Space.lacks_memory
        (λ z. frozen_of (T.Frozen.flat z) (T.Frozen.image z))
        (λ z. holding_of (T.Frozen.stake z) (T.Frozen.span z) (T.Frozen.pin z))
        (λ s. spaced_of (T.Space.flat s) (T.Space.spares s) (T.Space.finished s))
        (λ s. holding_of (T.Space.stake s) (T.Space.span s) (T.Space.pin s))
        number context.entry result }
{
    let Context {
        plan,
        id,
        function,
        layer,
        served,
        uses,
        stripped,
        still,
        hart,
        space,
    } = context;
    plan.is_sound();
    match store.capture(alloc, space) {
        Captured::Done {
            frozen,
            space,
            pages,
        } => {
            let start = plan.layers()[usize::from(number)].start;
            Taken::Done {
                layer: Layer {
                    plan,
                    number: Some(number),
                    start,
                    hart,
                    frozen,
                },
                context: Context {
                    plan,
                    id,
                    function,
                    layer: Some(number),
                    served,
                    uses,
                    stripped,
                    still: true,
                    hart,
                    space,
                },
                pages,
            }
        }
        Captured::NeedFrames(space) => Taken::NeedFrames(Context {
            plan,
            id,
            function,
            layer,
            served,
            uses,
            stripped,
            still,
            hart,
            space,
        }),
        Captured::Memory(space) => Taken::Memory(Context {
            plan,
            id,
            function,
            layer,
            served,
            uses,
            stripped,
            still,
            hart,
            space,
        }),
    }
}

/// Ends a context: every frame of its space that nothing else reaches, and its spares.
pub fn end<'a, T: Store>(store: &T, context: Context<'a, T::Space>) -> T::Spares
    requires { T.Space.pin context.space ≡ None }
    ensures stake { T.Spares.stake result ≡ T.Space.stake context.entry.space }
    ensures spares { T.Space.spares context.entry.space ≤ T.number result }
{
    store.release_space(context.space)
}

/// Every frame of a layer that nothing else reaches.
pub fn release<'a, T: Store>(store: &T, layer: Layer<'a, T::Frozen>) -> T::Spares
    requires { T.Frozen.pin layer.frozen ≡ None }
    ensures { T.Spares.stake result ≡ T.Frozen.stake layer.entry.frozen }
{
    store.release_frozen(layer.frozen)
}

/// Takes the spares of a context, which holds none afterwards. It may be stripped as often as it
/// has served.
pub fn strip<'a, T: Store>(store: &T, context: &mut Context<'a, T::Space>) -> T::Spares
    requires loose { T.Space.pin context.old.space ≡ None }
    requires served { context.old.stripped < length context.old.served }
    ensures number { T.number result ≡ T.Space.spares context.old.space }
    ensures stake { (T.Spares.stake result ≡ if_taken T.Space.takes_frames 1)
        × (T.Space.stake context.old.space
        ≡ T.Space.stake context.new.space + if_taken T.Space.takes_frames 1) }
    ensures span { T.Space.span context.new.space + T.number result
        ≤ T.Space.span context.old.space }
    ensures space { (spaced_of (T.Space.flat context.new.space)
        (T.Space.spares context.new.space) (T.Space.finished context.new.space)
        ≡ spaced_of (T.Space.flat context.old.space) 0 true)
        × (T.Space.pin context.new.space ≡ None) }
    ensures same { context.new ≡ record context.old {
      stripped = context.old.stripped + 1;
      space = context.new.space;
    } }
{
    context.stripped += 1;
    store.strip(&mut context.space)
}
