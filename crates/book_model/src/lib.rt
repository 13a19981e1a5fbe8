//! What a book is, and nothing of how it is kept: in `specs/` what all workers share of it, what it
//! keeps from its opening to its close, and what each call makes of it. In `proofs/` stand the
//! lemmas by which the calls keep it.
#![tactic(auto)]

pub use book_log::Started;
