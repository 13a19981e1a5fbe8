//! Laws of one service: what a journal's state tells of a request and its context, from the
//! request's start to its answer. A function here does nothing: its contract is the law.
#![tactic(auto)]

mod idle_contexts;
mod requests;
mod services;

pub use idle_contexts::parked_contexts_are_next;
pub use requests::started_requests_wait;
pub use services::{
    contexts_serve_what_they_are_given, layers_leave_a_service, others_leave_a_service,
    served_requests_are_counted, services_end,
};
