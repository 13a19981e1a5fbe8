//! Whether a journal is whole.

ghost use Rattle.std.specs.Prelude.{◌≡◌, ◌↔◌, All, true, false};
ghost use Rattle.journal_model.specs.Legal as legal;
ghost use Rattle.journal_model.specs.declared.state.RequestState.{RequestState};
ghost use Rattle.journal_model.specs.declared.state.ContextState.{ContextState};

use crate::conditions::is_open_standing;
use journal_model::{ContextState, Duty, RequestState};

/// Whether a context that is there for this serves a request.
fn is_busy_duty(duty: Duty) -> bool
    ensures { result ≡ legal.is_busy_duty duty }
{
    match duty {
        Duty::Serves { .. } => true,
        Duty::Idle | Duty::Over => false,
    }
}

/// Whether each request was answered, refused or wanted.
pub fn all_closed(requests: &[RequestState]) -> bool
    ensures { (result ≡ true)
        ↔ All (λ (r : RequestState). legal.is_open_standing r.standing ≡ false) requests.now }
{
    requests.iter().all(|r| !is_open_standing(r.standing))
}

/// Whether no context serves a request.
pub fn none_serves(contexts: &[ContextState]) -> bool
    ensures { (result ≡ true)
        ↔ All (λ (x : ContextState). legal.is_busy_duty x.duty ≡ false) contexts.now }
{
    contexts.iter().all(|x| !is_busy_duty(x.duty))
}
