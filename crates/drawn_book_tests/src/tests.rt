//! Calls of the book that are drawn, and plain lists that know nothing of it.

mod drawn;
mod lists;
