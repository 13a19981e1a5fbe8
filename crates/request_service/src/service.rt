//! One request at work.

use book_core::Deployed;
use context_runs::{LayerRun, RequestRun};
use journal_model::{Answer, How};

/// A request that was started, and that nothing serves yet.
#[derive(Clone, Copy, Debug, PartialEq, Eq)]
pub struct Unserved {
    /// Its number, from 1.
    pub i: u32,
    /// The number of its function.
    pub function: u16,
}

/// What a line will say of a request and its context.
#[derive(Clone, Copy, Debug, PartialEq, Eq)]
pub struct Origin {
    /// The number of the request, from 1.
    pub i: u32,
    /// Where its context came from.
    pub how: How,
    /// The number of the context, from 1, and 0 where there is none.
    pub context: u32,
    /// How many requests the context had answered.
    pub used: u32,
}

/// How far a context has come for a request.
#[derive(Drop)]
pub enum Work<C, S> {
    /// Its space was deployed, and it is to begin there, for the function.
    Deployed {
        function: u16,
        deployed: Deployed<S>,
    },
    /// It stands between runs.
    Between(C),
    /// It is in the run of the layer above it.
    Layer(C, LayerRun),
    /// It is in the run of the request.
    Request(C, RequestRun),
}

/// A request that was started, and the context that serves it.
#[derive(Drop)]
pub struct Service<C, S> {
    pub origin: Origin,
    pub work: Work<C, S>,
}

/// A context in a run, for a request.
#[derive(Drop)]
pub struct InRun<C, R> {
    pub origin: Origin,
    pub context: C,
    pub run: R,
}

/// What a turn of a service came to.
#[derive(Drop)]
pub enum Turned<C, S> {
    /// The request is still open.
    Went(Service<C, S>),
    /// The request is closed, with this line.
    Answered(Answer),
}
