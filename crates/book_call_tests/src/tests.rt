//! Scenes of calls of the book as lines of text, each played over copied pages or over counted
//! frames. What each call tells, and the events, were worked out by hand.

mod closing;
mod endings;
mod opening;
mod rows;
mod scenes;
