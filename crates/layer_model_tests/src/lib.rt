//! Layers, contexts and replies of small plans, as worked out by hand. The functions here do
//! nothing: their contracts are computed when they are proved.
#![tactic(auto)]

mod worked;
