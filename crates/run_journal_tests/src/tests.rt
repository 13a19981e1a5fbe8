//! Journals, and lines of events.

mod edges;
mod journals;
mod lines;
mod reading;
mod slow;
mod variants;
