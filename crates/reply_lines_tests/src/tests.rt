//! Lines of replies, and of totals.

mod fields;
mod limits;
mod none;
mod printed;
mod read_back;
