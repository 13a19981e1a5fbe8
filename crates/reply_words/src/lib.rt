//! The words of a reply's line: numbers, bytes and packets, pushed behind bytes and read.
#![tactic(auto)]

mod number;
mod packet;
mod piece;
mod word;

pub use number::{read_decimal, read_hexadecimal};
pub use packet::{push_packets, read_bytes, read_packets};
pub use piece::{Piece, push_pieces};
pub use word::{cut, is};
