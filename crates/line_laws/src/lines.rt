//! Lines of requests that were answered, or found no memory.

ghost use Rattle.std.specs.Prelude.{◌≡◌, ◌∷◌, ℕ, List, Option, Some, true};
ghost use Rattle.batch_model.specs.Replies.{AreGiven, IsLineOf, Shows, nothing_but, shown_in};
ghost use Rattle.journal_model.specs.Extents.{Extents};
ghost use Rattle.journal_model.specs.Legal.{after_all, at_first, is_open, request_function};
ghost use Rattle.journal_model.specs.Reads.{service_of, served};
ghost use Rattle.journal_model.specs.State.{State};
ghost use Rattle.journal_model.specs.declared.answer.Answer.{Answer as AnswerLine};
ghost use Rattle.journal_model.specs.declared.answer.End.TheVariants as ends;
ghost use Rattle.journal_model.specs.declared.event.Event.{Event};
ghost use Rattle.journal_model.specs.declared.event.Event.TheVariants.{Answer, Want};
ghost use Rattle.journal_model.specs.declared.state.ContextState.{ContextState};
ghost use Rattle.plan_model.specs.Outline.{Outline};
ghost use Rattle.service_laws.specs.Serving.{IsServing};
ghost use Rattle.space_api.specs.declared.given.Given.{Given};

/// What serves a request and answers it makes the request's line, whatever comes later: it shows
/// the reply at the context's place, after what that served before. So does the want of an open
/// request, whose line shows nothing but that. Each line says of its context what the journal did.
pub fn answers_make_lines()
    ensures answered { (plan : Outline) (sizes : Extents) (first later : List Event)
        (s t : State) (i c : ℕ) (x : ContextState) (given : ℕ → Option Given)
        (before : List Given) (own : Given) (answer : AnswerLine) →
        after_all sizes (at_first sizes) first ≡ Some s →
        after_all sizes s (Answer i c x.used ∷ later) ≡ Some t → IsServing s i c x →
        given i ≡ Some own → AreGiven given (served s c) before →
        Shows plan (request_function s i) x.layer before own (shown_in answer) →
        answer.i ≡ i → answer.how ≡ (service_of s i).how →
        answer.context ≡ (service_of s i).context → answer.used ≡ (service_of s i).used →
        IsLineOf plan given t i answer }
    ensures wanted { (plan : Outline) (sizes : Extents) (first later : List Event)
        (s t : State) (i : ℕ) (given : ℕ → Option Given) (answer : AnswerLine) →
        after_all sizes (at_first sizes) first ≡ Some s →
        after_all sizes s (Want i ∷ later) ≡ Some t → is_open s i ≡ true →
        answer.i ≡ i → answer.how ≡ (service_of s i).how →
        answer.context ≡ (service_of s i).context → answer.used ≡ (service_of s i).used →
        shown_in answer ≡ nothing_but ends.Memory → IsLineOf plan given t i answer }
{}
