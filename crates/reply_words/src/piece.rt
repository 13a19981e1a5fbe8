//! Pieces of a line, pushed behind bytes.

ghost use Rattle.std.specs.Prelude.{◌≡◌, ◌≤◌, ◌<◌, false, is_ok, IsOk, vec_capacity};
ghost use Rattle.std.specs.Fmt.{decimal, digit_glyph};
ghost use Rattle.std.specs.List.{flat_map};
ghost use Rattle.reply_words.specs.Spelling.{hexadecimal, byte_text, bytes_text};
ghost use Rattle.reply_words.specs.Pushes.{Pushes, HasRoom, piece_text, pieces_text};

use itoa::Buffer;
use machine_model::Memory;

/// A piece of a line.
#[derive(Clone, Copy)]
pub enum Piece<'a> {
    /// A text as it is.
    Text(&'a str),
    /// A number in decimal.
    Decimal(u64),
    /// A number in hexadecimal, in as many digits as it takes.
    Hexadecimal(u64),
    /// Bytes in hexadecimal, or a dash where there are none.
    Bytes(&'a [u8]),
}

/// Pushes bytes behind others. `Memory` where there is too little of it; the others stay.
fn push_slice(out: &mut Vec<u8>, bytes: &[u8]) -> Result<(), Memory>
    ensures pushed { Pushes (is_ok result) bytes.now out.old.items out.new.items }
    ensures room { HasRoom bytes.now out.old → IsOk result }
    ensures capacity { vec_capacity out.old ≤ vec_capacity out.new }
{
    out.extend_from_slice(bytes)?;
    Ok(())
}

/// The digit of a number below 16.
fn digit(n: u8) -> u8
    requires { n < 16 }
    ensures { result ≡ digit_glyph false n }
{
    if n < 10 { b'0' + n } else { b'a' + (n - 10) }
}

/// Pushes a number in hexadecimal. `Memory` where there is too little of it; what was there stays.
fn push_hexadecimal(out: &mut Vec<u8>, n: u64) -> Result<(), Memory>
    ensures pushed { Pushes (is_ok result) (hexadecimal n) out.old.items out.new.items }
    ensures room { HasRoom (hexadecimal n) out.old → IsOk result }
    ensures capacity { vec_capacity out.old ≤ vec_capacity out.new }
{
    let last = [digit((n % 16) as u8)];
    if n < 16 {
        return push_slice(out, &last);
    }
    push_hexadecimal(out, n / 16)?;
    push_slice(out, &last)
}

/// Pushes two digits a byte. `Memory` where there is too little of it; what was there stays.
fn push_digits(out: &mut Vec<u8>, bytes: &[u8]) -> Result<(), Memory>
    ensures pushed { Pushes (is_ok result) (flat_map byte_text bytes.now)
        out.old.items out.new.items }
    ensures room { HasRoom (flat_map byte_text bytes.now) out.old → IsOk result }
    ensures capacity { vec_capacity out.old ≤ vec_capacity out.new }
{
    'bytes: for byte in bytes {
        push_slice(out, &[digit(*byte / 16), digit(*byte % 16)])?;
    }
    Ok(())
}

/// Pushes bytes in hexadecimal, or a dash where there are none. `Memory` where there is too little
/// of it; what was there stays.
fn push_bytes(out: &mut Vec<u8>, bytes: &[u8]) -> Result<(), Memory>
    ensures pushed { Pushes (is_ok result) (bytes_text bytes.now) out.old.items out.new.items }
    ensures room { HasRoom (bytes_text bytes.now) out.old → IsOk result }
    ensures capacity { vec_capacity out.old ≤ vec_capacity out.new }
{
    if bytes.is_empty() {
        return push_slice(out, b"-");
    }
    push_digits(out, bytes)
}

/// Pushes a number in decimal. `Memory` where there is too little of it; what was there stays.
fn push_decimal(out: &mut Vec<u8>, n: u64) -> Result<(), Memory>
    ensures pushed { Pushes (is_ok result) (decimal n) out.old.items out.new.items }
    ensures room { HasRoom (decimal n) out.old → IsOk result }
    ensures capacity { vec_capacity out.old ≤ vec_capacity out.new }
{
    let mut digits = Buffer::new();
    push_slice(out, digits.format(n).as_bytes())
}

/// Pushes a piece. `Memory` where there is too little of it; what was there stays.
fn push_piece(out: &mut Vec<u8>, piece: &Piece<'_>) -> Result<(), Memory>
    ensures pushed { Pushes (is_ok result) (piece_text piece.now) out.old.items out.new.items }
    ensures room { HasRoom (piece_text piece.now) out.old → IsOk result }
    ensures capacity { vec_capacity out.old ≤ vec_capacity out.new }
{
    match *piece {
        Piece::Text(text) => push_slice(out, text.as_bytes()),
        Piece::Decimal(n) => push_decimal(out, n),
        Piece::Hexadecimal(n) => push_hexadecimal(out, n),
        Piece::Bytes(bytes) => push_bytes(out, bytes),
    }
}

/// Pushes pieces behind bytes, in their order. `Memory` where there is too little of it: some of
/// the text may then stand there, behind the bytes, which stay as they were.
pub fn push_pieces(out: &mut Vec<u8>, pieces: &[Piece<'_>]) -> Result<(), Memory>
    ensures pushed { Pushes (is_ok result) (pieces_text pieces.now) out.old.items out.new.items }
    ensures room { HasRoom (pieces_text pieces.now) out.old → IsOk result }
    ensures capacity { vec_capacity out.old ≤ vec_capacity out.new }
{
    match pieces {
        [first, rest @ ..] => {
            push_piece(out, first)?;
            push_pieces(out, rest)
        }
        [] => Ok(()),
    }
}
