//! Laws of the runs of contexts: what `served_one` and `capture` ask for is what a run gives. A
//! function here does nothing: its contract is the law.

ghost use Rattle.std.specs.Prelude.{◌≡◌, ℕ, false, [], ◌∷◌, None, Some, slice_get};
ghost use Rattle.hyper_calls.specs.Exchange.{starting};
ghost use Rattle.machine_model.specs.Run.{give};
ghost use Rattle.machine_model.specs.declared.stop.Stop.TheVariants as stop;
ghost use Rattle.layer_model.specs.Layers.{IsLayerRun, layer_limits};
ghost use Rattle.layer_model.specs.Replies.{IsFunction, IsRequestRun, request_limits};
ghost use Rattle.machine_run.specs.Continued.{RunsOn};
ghost use Rattle.plan_model.specs.declared.function.PlanFunction.{PlanFunction};
ghost use Rattle.plan_model.specs.declared.layer.PlanLayer.{PlanLayer};
ghost use Rattle.space_api.specs.Flat.{Flat, Traffic, machine_of};
ghost use Rattle.space_api.specs.declared.given.Given.{Given};
ghost use Rattle.context_uc.specs.Runs.{HasRested, HasReached};
ghost use Rattle.context_uc.specs.Views.{ContextView, IsModel, silent};
ghost use Rattle.machine_run.specs.declared.limits.RunEnd.TheVariants as end;

use space_api::Space;

/// Where a request's run rests, from a context between runs, the request may be noted as served:
/// whether the run is done by one call of `go` (`at_once`) or known in any other way (`known`).
pub fn rested_requests_are_served<S: Space>()
    ensures known { (old new : ContextView S) (old_flat new_flat : Flat) (given : Given)
        (counted : ℕ) (traffic : Traffic) →
        IsModel old.plan old.function old.layer old.served (machine_of old.hart old_flat silent) →
        new ≡ record old { still = false; hart = new.hart; space = new.space } →
        IsRequestRun old.plan (machine_of old.hart old_flat silent) given
        (record {
          stop = stop.Rest;
          number = counted;
          machine = machine_of new.hart new_flat traffic;
        }) →
        HasRested new new_flat given }
    ensures at_once { (old new : ContextView S) (old_flat new_flat : Flat) (given : Given)
        (counted : ℕ) (traffic : Traffic) →
        IsModel old.plan old.function old.layer old.served (machine_of old.hart old_flat silent) →
        new ≡ record old { still = false; hart = new.hart; space = new.space } →
        RunsOn given.clock (request_limits old.plan) 0 (machine_of old.hart old_flat
        (starting given.clock (given.packet ∷ [])).traffic) end.Rest counted
        (machine_of new.hart new_flat traffic) →
        HasRested new new_flat given }
{}

/// Where the run of the layer above comes to its trigger, from a context between runs that has
/// served nothing, the layer may be captured: whether the run is done by one call of `go`
/// (`at_once`) or known in any other way (`known`).
pub fn reached_layers_are_captured<S: Space>()
    ensures known { (old new : ContextView S) (old_flat new_flat : Flat) (number : ℕ)
        (layer : PlanLayer) (counted : ℕ) (traffic : Traffic) →
        IsModel old.plan old.function old.layer old.served (machine_of old.hart old_flat silent) →
        new ≡ record old { still = false; hart = new.hart; space = new.space } →
        old.served ≡ [] → slice_get old.plan.layers number ≡ Some layer →
        layer.below ≡ old.layer →
        ((function : PlanFunction) (top : PlanLayer) →
        IsFunction old.plan old.function function top → layer.start ≡ top.start) →
        IsLayerRun old.plan layer (machine_of old.hart old_flat silent)
        (record {
          stop = stop.Trigger;
          number = counted;
          machine = machine_of new.hart new_flat traffic;
        }) →
        HasReached new new_flat number }
    ensures at_once { (old new : ContextView S) (old_flat new_flat : Flat) (number : ℕ)
        (layer : PlanLayer) (counted : ℕ) (traffic : Traffic) →
        IsModel old.plan old.function old.layer old.served (machine_of old.hart old_flat silent) →
        new ≡ record old { still = false; hart = new.hart; space = new.space } →
        old.served ≡ [] → slice_get old.plan.layers number ≡ Some layer →
        layer.below ≡ old.layer →
        ((function : PlanFunction) (top : PlanLayer) →
        IsFunction old.plan old.function function top → layer.start ≡ top.start) →
        RunsOn 0 (layer_limits old.plan layer) 0 (machine_of old.hart old_flat
        (starting 0 layer.packets).traffic) end.Trigger counted
        (machine_of new.hart new_flat traffic) →
        HasReached new new_flat number }
{}
