//! Contexts.

ghost use Rattle.std.specs.Prelude.{◌≡◌, ◌≢◌, ◌↔◌, ℕ, ◌+◌, ◌<◌, ◌≤◌, true, false, IfSome, IfOk};
ghost use Rattle.std.specs.Prelude.{IfErr, None, [], ◌∷◌, ◌++◌, length};
ghost use Rattle.space_api.specs.Flat.{machine_of};
ghost use Rattle.space_api.specs.Frames.{Spent};
ghost use Rattle.space_api.specs.Holding.{holding_of, first_stake};
ghost use Rattle.machine_run.specs.Continued.{limits_of, woken, RunsOn};
ghost use Rattle.machine_run.specs.Frames.{IsUndone};
ghost use Rattle.machine_run.specs.Stopping.{Pauses, StopsForFrames};
ghost use Rattle.context_uc.specs.Runs.{HasRested};
ghost use Rattle.context_uc.specs.Views.{IsModel, IsSound, level_of, silent};

use hyper_calls::Ports;
use layer_model::Plan;
use machine_run::{Limits, Progress, RunEnd, Steps, run};
use space_api::{Given, Hart, Space};
use std::alloc::Global;
use std::marker::Model;
use std::sync::ledger::Ledger;

/// A running function of a plan: its hart and its space, where it stands and what it has served.
///
/// Between runs it is the machine that the plan means: that of its layer, or of its image, after
/// the requests that it served.
#[derive(Drop)]
pub struct Context<'a, S: Space> {
    pub(crate) plan: &'a Plan,
    pub(crate) id: u32,
    pub(crate) function: u16,
    pub(crate) layer: Option<u16>,
    pub(crate) served: Vec<Given>,
    pub(crate) uses: u32,
    pub(crate) stripped: u32,
    pub(crate) still: bool,
    pub(crate) hart: Hart,
    pub(crate) space: S,
}

impl<'a, S: Space> Model for Context<'a, S> {
    ghost use Rattle.std.specs.Prelude.{◌≤◌, vec_capacity};
    ghost use Rattle.space_api.specs.Holding.{holding_of};
    ghost use Rattle.context_uc.specs.Views.{ContextView, IsSound};

    ghost Value = { ContextView S };

    ghost view = { λ c. record {
      plan = c.plan.now;
      id = c.id;
      function = c.function;
      layer = c.layer;
      served = c.served.items;
      uses = c.uses;
      stripped = c.stripped;
      still = c.still;
      hart = c.hart;
      space = c.space;
    } };

    ghost invariant = { λ c. (c.uses ≤ vec_capacity c.served) × IsSound S.takes_frames (record {
      plan = c.plan.now;
      id = c.id;
      function = c.function;
      layer = c.layer;
      served = c.served.items;
      uses = c.uses;
      stripped = c.stripped;
      still = c.still;
      hart = c.hart;
      space = c.space;
    })
        (S.flat c.space) (S.finished c.space)
        (holding_of (S.stake c.space) (S.span c.space) (S.pin c.space)) };
}

/// A context of a function that stands at a layer of the plan, or at the image, and has served
/// nothing. It may serve so many requests, at most 64. The only error is want of memory, and
/// hands the space back.
pub fn begin<'a, S: Space>(
    alloc: Global,
    plan: &'a Plan,
    id: u32,
    function: u16,
    layer: Option<u16>,
    hart: Hart,
    space: S,
    uses: u32,
) -> Result<Context<'a, S>, S>
    requires uses { uses ≤ 64 }
    requires finished { S.finished space ≡ true }
    requires level { level_of layer ≤ 64 }
    requires model { IsModel plan.now function layer [] (machine_of hart (S.flat space) silent) }
    requires stake { S.takes_frames ≡ true → first_stake ≤ S.stake space }
    ensures begun { IfOk result (λ context. context ≡ record {
      plan = plan.now;
      id = id;
      function = function;
      layer = layer;
      served = [];
      uses = uses;
      stripped = 0;
      still = true;
      hart = hart;
      space = space;
    }) }
    ensures back { IfErr result (λ given. given ≡ space) }
{
    match Vec::with_capacity(alloc, uses as usize) {
        Ok(served) => Ok(Context {
            plan,
            id,
            function,
            layer,
            served,
            uses,
            stripped: 0,
            still: true,
            hart,
            space,
        }),
        Err(_) => Err(space),
    }
}

impl<'a, S: Space> Context<'a, S> {
    /// Runs on, as `machine_run::run` does. It is no longer between runs.
    pub fn go<L: Ledger>(
        &mut self,
        ports: &mut Ports,
        limits: &Limits,
        progress: &mut Progress,
        steps: &mut Steps<L>,
    ) -> RunEnd
        requires budget { progress.old.done ≤ limits.now.budget }
        requires loose { S.pin self.old.space ≡ None }
        ensures runs { RunsOn ports.old.clock (limits_of limits.now) progress.old.done
            (machine_of self.old.hart (S.flat self.old.space) ports.old.traffic) result
            progress.new.done
            (machine_of self.new.hart (S.flat self.new.space) ports.new.traffic) }
        ensures within { (progress.old.done ≤ progress.new.done)
            × (progress.new.done ≤ limits.now.budget) }
        ensures pause { IfSome limits.now.pause (λ n.
            progress.new.done ≤ progress.old.done + n) }
        ensures below { IsUndone result → (progress.new.done < limits.now.budget)
            × IfSome limits.now.pause (λ n. progress.new.done < progress.old.done + n) }
        ensures paused { (result ≡ RunEnd.Paused) ↔ Pauses ports.old.clock limits.now
            progress.old.done
            (woken (machine_of self.old.hart (S.flat self.old.space) ports.old.traffic))
            progress.new.done (machine_of self.new.hart (S.flat self.new.space) ports.new.traffic) }
        ensures frames { (result ≡ RunEnd.NeedFrames) ↔ StopsForFrames S.takes_frames
            (S.spares self.new.space) ports.old.clock limits.now progress.old.done
            (woken (machine_of self.old.hart (S.flat self.old.space) ports.old.traffic))
            progress.new.done
            (machine_of self.new.hart (S.flat self.new.space) ports.new.traffic) }
        ensures memory { result ≡ RunEnd.Memory → S.lacks_memory ≡ true }
        ensures ticks { steps.new + progress.old.done ≡ steps.old + progress.new.done }
        ensures clock { ports.new.clock ≡ ports.old.clock }
        ensures awake { result ≢ RunEnd.Rest → self.new.hart.resting ≡ false }
        ensures spent { Spent S.takes_frames (S.spares self.old.space)
            (S.flat self.old.space).written (S.spares self.new.space)
            (S.flat self.new.space).written }
        ensures same { self.new ≡ record self.old {
          still = false;
          hart = self.new.hart;
          space = self.new.space;
        } }
        ensures held { (S.finished self.new.space ≡ true)
            × (holding_of (S.stake self.new.space) (S.span self.new.space)
            (S.pin self.new.space) ≡ holding_of (S.stake self.old.space)
            (S.span self.old.space) None) }
    {
        self.still = false;
        run(
            &mut self.hart,
            &mut self.space,
            ports,
            limits,
            progress,
            steps,
        )
    }

    /// Notes the request whose run rested. It is between runs again. It takes no memory.
    pub fn served_one(&mut self, given: Given)
        requires rested { HasRested self.old (S.flat self.old.space) given }
        requires room { length self.old.served < self.old.uses }
        ensures { self.new ≡ record self.old {
          served = self.old.served ++ given ∷ [];
          still = true;
        } }
    {
        self.served.push_reserved(given);
        self.still = true;
    }

    /// The plan that it borrows.
    pub fn plan(&self) -> &'a Plan
        ensures { result.now ≡ self.now.plan }
    {
        self.plan
    }

    /// Whether it is between runs.
    pub fn is_still(&self) -> bool
        ensures { result ≡ self.now.still }
    {
        self.still
    }

    /// Changes nothing: what holds of every context is what it ensures.
    pub fn is_the_model(&self)
        ensures { IsSound S.takes_frames self.now (S.flat self.now.space)
            (S.finished self.now.space) (holding_of (S.stake self.now.space)
            (S.span self.now.space) (S.pin self.now.space)) }
    {
        let _plan = self.plan;
    }
}
