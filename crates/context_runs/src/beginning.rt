//! Contexts begin.

ghost use Rattle.std.specs.Prelude.{◌≡◌, true, false, None, [], IfOk, IfErr};
ghost use Rattle.space_api.specs.Flat.{machine_of};
ghost use Rattle.space_api.specs.Holding.{holding_of};
ghost use Rattle.context_uc.specs.Views.{silent};
ghost use Rattle.context_runs.specs.Standing.{StandsFor};

use context_uc::{Context, begin};
use layer_model::Plan;
use space_api::{Hart, Space, Store};
use std::alloc::Global;

/// Where a context begins.
#[derive(Clone, Copy)]
pub struct Spot {
    /// The number of the context.
    pub context: u32,
    /// The number of its function.
    pub function: u16,
    /// The layer that its space was deployed from, or none where it was the image.
    pub place: Option<u16>,
    /// The hart with which it begins.
    pub hart: Hart,
}

/// A context of the function that stands where its space was deployed from, and has served
/// nothing. Its space is finished. The only error is want of memory, and hands the space back,
/// which is finished too.
pub fn begin_at<'a, T: Store>(
    alloc: Global,
    store: &T,
    plan: &'a Plan,
    spot: Spot,
    space: T::Space,
) -> Result<Context<'a, T::Space>, T::Space>
    requires plain { T.Space.takes_frames ≡ false }
    requires loose { T.Space.pin space ≡ None }
    requires begun { T.Space.finished space ≡ false }
    requires stands { StandsFor plan.now spot.function spot.place
        (machine_of spot.hart (T.Space.flat space) silent) }
    ensures begun { IfOk result (λ context. context ≡ record {
      plan = plan.now;
      id = spot.context;
      function = spot.function;
      layer = spot.place;
      served = [];
      uses = plan.now.numbers.uses;
      stripped = 0;
      still = true;
      hart = spot.hart;
      space = context.space;
    }) }
    ensures stands { IfOk result (λ context. StandsFor plan.now spot.function spot.place
        (machine_of spot.hart (T.Space.flat context.space) silent)) }
    ensures space { IfOk result (λ context.
        (T.Space.flat context.space ≡ T.Space.flat space)
        × (T.Space.spares context.space ≡ T.Space.spares space)
        × (holding_of (T.Space.stake context.space) (T.Space.span context.space)
        (T.Space.pin context.space)
        ≡ holding_of (T.Space.stake space) (T.Space.span space) None)) }
    ensures back { IfErr result (λ given. (T.Space.finished given ≡ true)
        × (T.Space.flat given ≡ T.Space.flat space)
        × (T.Space.spares given ≡ T.Space.spares space)
        × (holding_of (T.Space.stake given) (T.Space.span given) (T.Space.pin given)
        ≡ holding_of (T.Space.stake space) (T.Space.span space) None)) }
{
    plan.is_sound();
    let mut space = space;
    store.finish_deploy(&mut space);
    let uses = plan.numbers().uses;
    begin(
        alloc,
        plan,
        spot.context,
        spot.function,
        spot.place,
        spot.hart,
        space,
        uses,
    )
}
