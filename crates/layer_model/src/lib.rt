//! What layers and replies mean, and nothing of how they are made: in `specs/` what a layer of a
//! plan is, why one isn't there, what a context is that has served some requests, and what a
//! request is answered. `layer_laws` shows that the definitions mean what they should.
#![tactic(auto)]

pub use plan_model::Plan;
pub use space_api::Given;
