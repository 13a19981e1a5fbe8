//! What a service keeps while others take their turns.

ghost use Rattle.std.specs.Prelude.{◌≡◌, ◌≢◌, ℕ, List, Option, true};
ghost use Rattle.batch_laws.specs.SoFar.{IsNext, IsSoFar};
ghost use Rattle.book_log.specs.declared.started.Started.{Started};
ghost use Rattle.book_model.specs.Shared.{Shared};
ghost use Rattle.context_uc.specs.Views.{ContextView};
ghost use Rattle.deployer.specs.Hosting.{Telling};
ghost use Rattle.hyper_calls.specs.Exchange.{Exchange};
ghost use Rattle.journal_model.specs.Legal.{is_open};
ghost use Rattle.journal_model.specs.declared.answer.Answer.{Answer};
ghost use Rattle.journal_model.specs.declared.event.Event.{Event};
ghost use Rattle.plan_model.specs.Outline.{Outline};
ghost use Rattle.request_lines.specs.declared.request.Request.{Request};
ghost use Rattle.request_service.specs.Starting.{Starts};
ghost use Rattle.request_service.specs.Turns.{Closes, Goes};
ghost use Rattle.request_service.specs.UnderWay.{IsUnderWay, Waits};
ghost use Rattle.request_service.specs.declared.service.Service.{Service};
ghost use Rattle.request_service.specs.declared.service.Unserved.{Unserved};

/// A service is under way, and a request waits, as before where another service took a turn, or a
/// request was started. Their requests are open.
pub fn services_stay_under_way<S, L, H>()
    ensures gone { (plan : Outline) (telling : Telling S) (ports : Exchange)
        (service : Service (ContextView S) S) (i took : ℕ) (events : List Event)
        (old new : Shared (ContextView S) L H) → IsUnderWay plan telling ports service old →
        service.origin.i ≢ i → Goes plan i events took old new →
        IsUnderWay plan telling ports service new }
    ensures closed { (plan : Outline) (telling : Telling S) (ports : Exchange)
        (service : Service (ContextView S) S) (i : ℕ) (answer : Answer) (events : List Event)
        (old new : Shared (ContextView S) L H) → IsUnderWay plan telling ports service old →
        service.origin.i ≢ i → Closes plan i answer events old new →
        IsUnderWay plan telling ports service new }
    ensures started { (plan : Outline) (telling : Telling S) (ports : Exchange)
        (service : Service (ContextView S) S) (requests : List Request)
        (answers : ℕ → Option Answer) (took : ℕ) (one : Started) (request : Unserved)
        (old new : Shared (ContextView S) L H) → IsUnderWay plan telling ports service old →
        IsSoFar plan requests answers took old → IsNext plan requests one old →
        Starts one request old new → IsUnderWay plan telling ports service new }
    ensures under_way { (plan : Outline) (telling : Telling S) (ports : Exchange)
        (service : Service (ContextView S) S) (book : Shared (ContextView S) L H) →
        IsUnderWay plan telling ports service book →
        is_open book.state service.origin.i ≡ true }
    ensures waits_gone { (plan : Outline) (waiting : Unserved) (i took : ℕ)
        (events : List Event) (old new : Shared (ContextView S) L H) → Waits waiting old →
        waiting.i ≢ i → Goes plan i events took old new → Waits waiting new }
    ensures waits_closed { (plan : Outline) (waiting : Unserved) (i : ℕ) (answer : Answer)
        (events : List Event) (old new : Shared (ContextView S) L H) → Waits waiting old →
        waiting.i ≢ i → Closes plan i answer events old new → Waits waiting new }
    ensures waits_started { (waiting request : Unserved) (one : Started)
        (old new : Shared (ContextView S) L H) → Waits waiting old →
        Starts one request old new → Waits waiting new }
    ensures waits { (waiting : Unserved) (book : Shared (ContextView S) L H) →
        Waits waiting book → is_open book.state waiting.i ≡ true }
{}
