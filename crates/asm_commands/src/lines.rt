//! The words of an image as lines, sent to a sink.

ghost use Rattle.std.specs.Prelude.{◌≡◌, ◌+◌, ◌^◌, ◌<◌, ◌≤◌, length, take, drop};
ghost use Rattle.std.specs.Int.{w32, from_le_bytes};
ghost use Rattle.asm_commands.specs.Listing as model;
ghost use Rattle.output_buffer.specs.Sent.{Sends, way};
ghost use Rattle.rv_asm.specs.WordLines.{line_text};

use edge_streams::Sink;
use output_buffer::{Buffer, Piece, push, push_pieces};
use rv_asm::{WordLine, word_line};

/// Sends the text of a word's line.
fn push_text<K: Sink>(sink: &mut K, buffer: &mut Buffer, line: &WordLine)
    ensures { Sends (line_text line.now) (way K.contents K.faults sink.old buffer.old)
        (way K.contents K.faults sink.new buffer.new) }
{
    match *line {
        WordLine::Name { name } => push(sink, buffer, name.as_bytes()),
        WordLine::Upper { name, a, n } => push_pieces(
            sink,
            buffer,
            &[
                Piece::Text(name),
                Piece::Text(" x"),
                Piece::Number(a as u32),
                Piece::Text(", "),
                Piece::Number(n),
            ],
        ),
        WordLine::Jump { name, a, z } => push_pieces(
            sink,
            buffer,
            &[
                Piece::Text(name),
                Piece::Text(" x"),
                Piece::Number(a as u32),
                Piece::Text(", "),
                Piece::Signed(z),
            ],
        ),
        WordLine::Address { name, a, z, b } => push_pieces(
            sink,
            buffer,
            &[
                Piece::Text(name),
                Piece::Text(" x"),
                Piece::Number(a as u32),
                Piece::Text(", "),
                Piece::Signed(z),
                Piece::Text("(x"),
                Piece::Number(b as u32),
                Piece::Text(")"),
            ],
        ),
        WordLine::TwoRegisters { name, a, b, z } => push_pieces(
            sink,
            buffer,
            &[
                Piece::Text(name),
                Piece::Text(" x"),
                Piece::Number(a as u32),
                Piece::Text(", x"),
                Piece::Number(b as u32),
                Piece::Text(", "),
                Piece::Signed(z),
            ],
        ),
        WordLine::ThreeRegisters { name, a, b, c } => push_pieces(
            sink,
            buffer,
            &[
                Piece::Text(name),
                Piece::Text(" x"),
                Piece::Number(a as u32),
                Piece::Text(", x"),
                Piece::Number(b as u32),
                Piece::Text(", x"),
                Piece::Number(c as u32),
            ],
        ),
        WordLine::Fence { a, b, n } => push_pieces(
            sink,
            buffer,
            &[
                Piece::Text("fence x"),
                Piece::Number(a as u32),
                Piece::Text(", x"),
                Piece::Number(b as u32),
                Piece::Text(", "),
                Piece::Number(n),
            ],
        ),
        WordLine::Data { w } => push_pieces(
            sink,
            buffer,
            &[
                Piece::Text(".word 0x"),
                Piece::Padded {
                    n: w as u64,
                    width: 8,
                },
            ],
        ),
    }
}

/// Sends the address and the word of a line, up to its text.
fn push_prefix<K: Sink>(sink: &mut K, buffer: &mut Buffer, at: u64, w: u32)
    ensures { Sends (model.word_prefix at w) (way K.contents K.faults sink.old buffer.old)
        (way K.contents K.faults sink.new buffer.new) }
{
    push_pieces(
        sink,
        buffer,
        &[
            Piece::Hexadecimal(at),
            Piece::Text(" "),
            Piece::Padded {
                n: w as u64,
                width: 8,
            },
            Piece::Text(" "),
        ],
    );
}

/// Sends `ADDRESS WORD TEXT`, as a line.
fn push_word<K: Sink>(sink: &mut K, buffer: &mut Buffer, at: u64, w: u32)
    ensures { Sends (model.word_line at w) (way K.contents K.faults sink.old buffer.old)
        (way K.contents K.faults sink.new buffer.new) }
{
    let line = word_line(w);
    push_prefix(sink, buffer, at, w);
    push_text(sink, buffer, &line);
    push(sink, buffer, b"\n");
}

/// Sends `ADDRESS BYTE .byte 0xBYTE`, as a line.
fn push_byte<K: Sink>(sink: &mut K, buffer: &mut Buffer, at: u64, b: u8)
    ensures { Sends (model.byte_line at b) (way K.contents K.faults sink.old buffer.old)
        (way K.contents K.faults sink.new buffer.new) }
{
    let digits = Piece::Padded {
        n: b as u64,
        width: 2,
    };
    push_pieces(
        sink,
        buffer,
        &[
            Piece::Hexadecimal(at),
            Piece::Text(" "),
            digits,
            Piece::Text(" .byte 0x"),
            digits,
            Piece::Text("\n"),
        ],
    );
}

/// Sends the lines of a rest of bytes, one each.
fn push_rest<K: Sink>(sink: &mut K, buffer: &mut Buffer, at: u64, bytes: &[u8])
    requires { at + length bytes.now < 2 ^ 64 }
    ensures { Sends (model.rest_lines at bytes.now) (way K.contents K.faults sink.old buffer.old)
        (way K.contents K.faults sink.new buffer.new) }
{
    match bytes {
        [first, rest @ ..] => {
            push_byte(sink, buffer, at, *first);
            push_rest(sink, buffer, at + 1, rest);
        }
        [] => {}
    }
}

/// The word of the four bytes from this place on, the lowest first.
fn word_at(bytes: &[u8], place: usize) -> u32
    requires { place + 4 ≤ length bytes.now }
    ensures { result ≡ from_le_bytes w32 (take 4 (drop place bytes.now)) }
{
    let word = &bytes[place..place + 4];
    u32::from_le_bytes([word[0], word[1], word[2], word[3]])
}

/// Sends the lines of bytes from an address on, four each, and of a rest one each.
pub fn push_bytes<K: Sink>(sink: &mut K, buffer: &mut Buffer, at: u64, bytes: &[u8])
    requires { at + length bytes.now < 2 ^ 64 }
    ensures { Sends (model.bytes_lines at bytes.now) (way K.contents K.faults sink.old buffer.old)
        (way K.contents K.faults sink.new buffer.new) }
{
    let mut done = 0;
    'words: while bytes.len() - done >= 4 {
        push_word(sink, buffer, at + done as u64, word_at(bytes, done));
        done += 4;
    }
    push_rest(sink, buffer, at + done as u64, &bytes[done..]);
}
