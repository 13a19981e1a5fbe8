//! What requests are answered.

ghost use Rattle.std.specs.Prelude.{◌≡◌, ◌≢◌, ◌↔◌, ℕ, All, List, Option, Some};
ghost use Rattle.journal_model.specs.State.{layer_above};
ghost use Rattle.layer_laws.specs.Requests.{IsRequest, miss_reply, run_reply};
ghost use Rattle.layer_model.specs.Layers.{IsNoLayer};
ghost use Rattle.layer_model.specs.Replies.{IsContext, IsFunction, IsReply, IsRequestRun, Reply};
ghost use Rattle.machine_model.specs.Machine.{Machine};
ghost use Rattle.machine_model.specs.Run.{End};
ghost use Rattle.machine_model.specs.declared.stop.Stop.{Stop};
ghost use Rattle.plan_model.specs.Outline.{Outline, IsPlan};
ghost use Rattle.plan_model.specs.Stacks.{stack};
ghost use Rattle.plan_model.specs.declared.function.PlanFunction.{PlanFunction};
ghost use Rattle.plan_model.specs.declared.layer.PlanLayer.{PlanLayer};
ghost use Rattle.space_api.specs.declared.given.Given.{Given};

/// A request has one reply at most, by where its context stands and what it has served.
pub fn one_reply()
    ensures { (plan : Outline) (number : ℕ) (place : Option ℕ) (served : List Given)
        (given : Given) (a b : Reply) → IsReply plan number place served given a →
        IsReply plan number place served given b → a ≡ b }
{}

/// A reply is exactly what the request's run shows where the context stands at its function's
/// layer, and exactly the reason why there is no layer where the context stands directly below
/// that.
pub fn replies_are_exact()
    ensures at_layer { (plan : Outline) (number : ℕ) (function : PlanFunction)
        (layer : PlanLayer) (served : List Given) (given : Given) (m : Machine)
        (reply : Reply) → IsFunction plan number function layer →
        IsContext plan layer.start (Some function.layer) served m →
        IsReply plan number (Some function.layer) served given reply
        ↔ ((end : End) × IsRequestRun plan m given end × (reply ≡ run_reply end)) }
    ensures below { (plan : Outline) (number : ℕ) (function : PlanFunction)
        (layer : PlanLayer) (place : Option ℕ) (above : ℕ) (served : List Given)
        (given : Given) (reply : Reply) → IsFunction plan number function layer →
        place ≢ Some function.layer →
        layer_above place (stack plan.layers function.layer) ≡ Some above →
        IsReply plan number place served given reply
        ↔ ((why : Stop) × IsNoLayer plan above why × (reply ≡ miss_reply above why)) }
{}

/// There is a reply for each context that stands at its function's layer.
pub fn each_request_is_answered()
    ensures { (plan : Outline) (number : ℕ) (function : PlanFunction) (layer : PlanLayer)
        (served : List Given) (given : Given) (m : Machine) → IsPlan plan →
        IsFunction plan number function layer → All IsRequest served → IsRequest given →
        IsContext plan layer.start (Some function.layer) served m →
        (reply : Reply) × IsReply plan number (Some function.layer) served given reply }
{}
