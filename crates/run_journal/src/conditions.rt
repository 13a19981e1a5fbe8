//! What is asked of a journal's state before an event.

ghost use Rattle.std.specs.Prelude.{◌≡◌, ◌+◌, ◌^◌, ◌<◌, true, length};
ghost use Rattle.journal_model.specs.Legal as legal;
ghost use Rattle.journal_model.specs.State as model;

use crate::current::Current;
use crate::numbered::numbered;
use crate::owing::owes_nothing;
use crate::stacks::{layer_above, stack_of};
use journal_model::{ContextState, Duty, Sizes, Standing};

/// Whether the context is for the function.
fn is_for(function: u16, context: Option<ContextState>) -> bool
    ensures { result ≡ legal.is_for_one function context }
{
    match context {
        None => false,
        Some(context) => context.function == function,
    }
}

/// The first of these contexts that is for the function.
#[tactic(auto, unfolding(journal_model::specs::Legal::first_for))]
fn first_for(function: u16, contexts: &[ContextState], numbers: &[u32]) -> Option<u32>
    ensures { result ≡ legal.first_for function contexts.now numbers.now }
{
    match numbers {
        [] => None,
        [first, rest @ ..] => {
            if is_for(function, numbered(contexts, *first)) {
                Some(*first)
            } else {
                first_for(function, contexts, rest)
            }
        }
    }
}

/// Whether a request that stands so is open.
pub fn is_open_standing(standing: Standing) -> bool
    ensures { result ≡ legal.is_open_standing standing }
{
    match standing {
        Standing::Open => true,
        Standing::Answered | Standing::Refused | Standing::Wanted => false,
    }
}

/// Whether a request that stands so was refused or wanted.
fn is_failed_standing(standing: Standing) -> bool
    ensures { result ≡ legal.is_failed_standing standing }
{
    match standing {
        Standing::Refused | Standing::Wanted => true,
        Standing::Open | Standing::Answered => false,
    }
}

impl Current {
    /// Whether any event may follow.
    pub fn owes_nothing(&self) -> bool
        ensures { result ≡ legal.owes_nothing self.now.owed }
    {
        owes_nothing(self.owed())
    }

    /// Whether request `i` is open.
    #[tactic(auto, unfolding(journal_model::specs::Legal::is_open))]
    pub fn is_open(&self, i: u32) -> bool
        ensures { result ≡ legal.is_open self.now i }
    {
        match self.request(i) {
            None => false,
            Some(request) => is_open_standing(request.standing),
        }
    }

    /// Whether request `i` was refused or wanted.
    #[tactic(auto, unfolding(journal_model::specs::Legal::is_failed))]
    pub fn is_failed(&self, i: u32) -> bool
        ensures { result ≡ legal.is_failed self.now i }
    {
        match self.request(i) {
            None => false,
            Some(request) => is_failed_standing(request.standing),
        }
    }

    /// Whether request `i` is open without a context.
    #[tactic(auto, unfolding(journal_model::specs::Legal::is_waiting))]
    pub fn is_waiting(&self, i: u32) -> bool
        ensures { result ≡ legal.is_waiting self.now i }
    {
        match self.request(i) {
            None => false,
            Some(request) => is_open_standing(request.standing) && request.context.is_none(),
        }
    }

    /// The function of request `i`; 0 where it wasn't started.
    #[tactic(auto, unfolding(journal_model::specs::Legal::request_function))]
    pub fn request_function(&self, i: u32) -> u16
        ensures { result ≡ legal.request_function self.now i }
    {
        match self.request(i) {
            None => 0,
            Some(request) => request.function,
        }
    }

    /// The most recent idle context of the function of request `i`.
    pub fn first_idle(&self, i: u32) -> Option<u32>
        ensures { result ≡ legal.first_for (legal.request_function self.now i)
            self.now.contexts self.now.idle }
    {
        let function = self.request_function(i);
        first_for(function, self.contexts(), self.idle().as_slice())
    }

    /// Whether context `c` serves request `i`.
    #[tactic(auto, unfolding(journal_model::specs::Legal::serves))]
    pub fn serves(&self, c: u32, i: u32) -> bool
        ensures { result ≡ legal.serves self.now c i }
    {
        match self.context(c) {
            None => false,
            Some(context) => match context.duty {
                Duty::Serves { i: served } => served == i,
                Duty::Idle | Duty::Over => false,
            },
        }
    }

    /// The request that context `c` serves; 0 where it serves none.
    #[tactic(auto, unfolding(journal_model::specs::Legal::served_by))]
    pub fn served_by(&self, c: u32) -> u32
        ensures { result ≡ legal.served_by self.now c }
    {
        match self.context(c) {
            None => 0,
            Some(context) => match context.duty {
                Duty::Serves { i } => i,
                Duty::Idle | Duty::Over => 0,
            },
        }
    }

    /// Where context `c` stands: the layer, and none at the image.
    #[tactic(auto, unfolding(journal_model::specs::Legal::place_of))]
    pub fn place_of(&self, c: u32) -> Option<u16>
        ensures { result ≡ legal.place_of self.now c }
    {
        match self.context(c) {
            None => None,
            Some(context) => context.layer,
        }
    }

    /// How many requests context `c` answered; 0 where it wasn't drawn.
    #[tactic(auto, unfolding(journal_model::specs::Legal::answered_by))]
    pub fn answered_by(&self, c: u32) -> u64
        ensures { result ≡ legal.answered_by self.now c }
    {
        match self.context(c) {
            None => 0,
            Some(context) => context.used,
        }
    }

    /// The context that request `i` was given.
    #[tactic(auto, unfolding(journal_model::specs::Legal::given_to))]
    pub fn given_to(&self, i: u32) -> Option<u32>
        ensures { result ≡ legal.given_to self.now i }
    {
        match self.request(i) {
            None => None,
            Some(request) => request.context,
        }
    }

    /// Where a context stands, if there is one.
    pub fn place_of_given(&self, context: Option<u32>) -> Option<u16>
        ensures { result ≡ legal.place_of_given self.now context }
    {
        match context {
            None => None,
            Some(c) => self.place_of(c),
        }
    }

    /// Whether context `c` has answered `u` requests.
    #[tactic(auto, unfolding(journal_model::specs::Legal::has_answered))]
    pub fn has_answered(&self, c: u32, u: u32) -> bool
        ensures { result ≡ legal.has_answered self.now c u }
    {
        match self.context(c) {
            None => false,
            Some(context) => context.used == u64::from(u),
        }
    }

    /// The layer directly above the place where context `c` stands.
    #[tactic(auto, unfolding(journal_model::specs::Legal::above))]
    pub fn above(&self, sizes: &Sizes, c: u32) -> Option<u16>
        ensures { result ≡ legal.above sizes.now self.now c }
    {
        match self.context(c) {
            None => None,
            Some(context) => layer_above(context.layer, stack_of(sizes, context.function)),
        }
    }

    /// Whether frames are counted and none is free.
    pub fn is_short(&self, sizes: &Sizes) -> bool
        ensures { result ≡ legal.is_short sizes.now self.now }
    {
        sizes.root == 1 && self.free() == 0
    }
}
