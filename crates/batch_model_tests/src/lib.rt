//! Batches as worked out by hand, that are right or wrong. The functions here do nothing: their
//! contracts are computed when they are proved.
#![tactic(auto)]

mod worked;
