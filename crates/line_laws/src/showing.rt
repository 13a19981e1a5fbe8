//! Replies of contexts, as lines show them.

ghost use Rattle.batch_model.specs.Replies.{Shows};
ghost use Rattle.context_runs.specs.OfRequests.{Replies};
ghost use Rattle.context_runs.specs.declared.replying.RunReply.{RunReply};
ghost use Rattle.context_uc.specs.Views.{ContextView};
ghost use Rattle.layer_model.specs.Replies.{Ending};
ghost use Rattle.space_api.specs.declared.given.Given.{Given};

/// What a context replies is what a line is to show of a request of its function, at its place,
/// after what it served.
pub fn replies_are_shown<S>()
    ensures { (c : ContextView S) (given : Given) (ending : Ending) (r : RunReply) →
        Replies c given ending r →
        Shows c.plan c.function c.layer c.served given (record {
          end = r.end;
          steps = r.steps;
          net = r.net;
          console = r.console;
        }) }
{}
