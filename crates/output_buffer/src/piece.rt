//! Texts in pieces: words and numbers, printed without memory.

ghost use Rattle.std.specs.Prelude.{◌≡◌, ◌<◌, false};
ghost use Rattle.std.specs.Fmt.{digit_glyph, signed_decimal};
ghost use Rattle.output_buffer.specs.Pieces.{padded, piece_text, pieces_text};
ghost use Rattle.output_buffer.specs.Sent.{Sends, way};

use crate::buffer::Buffer;
use crate::passing::push;
use edge_streams::Sink;
use itoa::Buffer as Digits;

/// A piece of a text.
#[derive(Clone, Copy)]
pub enum Piece<'a> {
    /// A text as it is.
    Text(&'a str),
    /// A number in decimal.
    Number(u32),
    /// A number in decimal, behind a minus where it is below 0.
    Signed(i32),
    /// A number in hexadecimal, in as many digits as it takes.
    Hexadecimal(u64),
    /// A number in hexadecimal, behind zeros up to so many digits.
    Padded { n: u64, width: u8 },
}

/// Sends the text of pieces, in their order, behind what was sent before.
pub fn push_pieces<K: Sink>(sink: &mut K, buffer: &mut Buffer, pieces: &[Piece<'_>])
    ensures { Sends (pieces_text pieces.now) (way K.contents K.faults sink.old buffer.old)
        (way K.contents K.faults sink.new buffer.new) }
{
    match pieces {
        [first, rest @ ..] => {
            push_piece(sink, buffer, first);
            push_pieces(sink, buffer, rest);
        }
        [] => {}
    }
}

/// Sends the text of a piece.
fn push_piece<K: Sink>(sink: &mut K, buffer: &mut Buffer, piece: &Piece<'_>)
    ensures { Sends (piece_text piece.now) (way K.contents K.faults sink.old buffer.old)
        (way K.contents K.faults sink.new buffer.new) }
{
    let mut digits = Digits::new();
    match *piece {
        Piece::Text(text) => push(sink, buffer, text.as_bytes()),
        Piece::Number(n) => push(sink, buffer, digits.format(n).as_bytes()),
        Piece::Signed(z) => push_signed(sink, buffer, z),
        Piece::Hexadecimal(n) => push_hex(sink, buffer, n, 1),
        Piece::Padded { n, width } => push_hex(sink, buffer, n, width),
    }
}

/// Sends a number in decimal, behind a minus where it is below 0.
fn push_signed<K: Sink>(sink: &mut K, buffer: &mut Buffer, z: i32)
    ensures { Sends (signed_decimal z) (way K.contents K.faults sink.old buffer.old)
        (way K.contents K.faults sink.new buffer.new) }
{
    let mut digits = Digits::new();
    push(sink, buffer, digits.format(z).as_bytes());
}

/// Sends a number in hexadecimal, behind zeros up to so many digits.
fn push_hex<K: Sink>(sink: &mut K, buffer: &mut Buffer, n: u64, width: u8)
    ensures { Sends (padded width n) (way K.contents K.faults sink.old buffer.old)
        (way K.contents K.faults sink.new buffer.new) }
{
    let last = [hexadecimal_digit(n % 16)];
    if n < 16 && width <= 1 {
        push(sink, buffer, &last);
        return;
    }
    push_hex(sink, buffer, n / 16, width.saturating_sub(1));
    push(sink, buffer, &last);
}

/// The digit of a number below 16.
fn hexadecimal_digit(d: u64) -> u8
    requires { d < 16 }
    ensures { result ≡ digit_glyph false d }
{
    if d < 10 {
        b'0' + d as u8
    } else {
        b'a' + (d as u8 - 10)
    }
}
