//! Where a request's context came from, and which it was.

ghost use Rattle.std.specs.Prelude.{◌≡◌, ◌≤◌, is_ok, IsOk, vec_capacity};
ghost use Rattle.std.specs.Prelude.{MatchOption, None, Some};
ghost use Rattle.reply_words.specs.Pushes.{Pushes, HasRoom};
ghost use Rattle.reply_lines.specs.Line.{how_text, service_text};
ghost use Rattle.reply_lines.specs.Reading as model;

use journal_model::{Answer, How};
use machine_model::Memory;
use reply_words::{Piece, cut, is, push_pieces, read_decimal};

/// The word of where a context came from.
fn how_word(how: How) -> &'static str
    ensures { result.now ≡ how_text how }
{
    match how {
        How::Cold => "cold",
        How::Warm => "warm",
        How::Hot => "hot",
        How::None => "none",
    }
}

/// Pushes `I HOW cN uN` and a space. `Memory` where there is too little of it; what was there
/// stays.
pub fn push_service(out: &mut Vec<u8>, answer: &Answer) -> Result<(), Memory>
    ensures pushed { Pushes (is_ok result) (service_text answer.now) out.old.items out.new.items }
    ensures room { HasRoom (service_text answer.now) out.old → IsOk result }
    ensures capacity { vec_capacity out.old ≤ vec_capacity out.new }
{
    push_pieces(
        out,
        &[
            Piece::Decimal(u64::from(answer.i)),
            Piece::Text(" "),
            Piece::Text(how_word(answer.how)),
            Piece::Text(" c"),
            Piece::Decimal(u64::from(answer.context)),
            Piece::Text(" u"),
            Piece::Decimal(u64::from(answer.used)),
            Piece::Text(" "),
        ],
    )
}

/// Where a context came from, by its word.
#[tactic(auto, unfolding(crate::specs::Reading::how_of))]
fn read_how(word: &[u8]) -> Option<How>
    ensures { result ≡ model.how_of word.now }
{
    if is(word, "cold") {
        return Some(How::Cold);
    }
    if is(word, "warm") {
        return Some(How::Warm);
    }
    if is(word, "hot") {
        return Some(How::Hot);
    }
    if is(word, "none") {
        return Some(How::None);
    }
    None
}

/// A number of 32 bits.
fn read_count(word: &[u8]) -> Option<u32>
    ensures { result ≡ model.count_of word.now }
{
    let n = read_decimal(u64::from(u32::MAX), word)?;
    Some(n as u32)
}

/// A number of 32 bits behind a letter.
fn read_lettered(letter: u8, word: &[u8]) -> Option<u32>
    ensures { result ≡ model.lettered letter word.now }
{
    match word {
        [first, rest @ ..] => {
            if *first != letter {
                return None;
            }
            read_count(rest)
        }
        [] => None,
    }
}

/// The first four words of a line, and what follows them.
#[derive(Clone, Copy)]
pub struct FrontWords<'a> {
    number: &'a [u8],
    how: &'a [u8],
    context: &'a [u8],
    used: &'a [u8],
    pub rest: &'a [u8],
}

/// The first four words of a line, where spaces follow them.
#[tactic(auto, unfolding(crate::specs::Reading::front_of))]
pub fn front(line: &[u8]) -> Option<FrontWords<'_>>
    ensures { MatchOption result (model.front_of line.now ≡ None) (λ front.
        model.front_of line.now ≡ Some (record {
          number = front.number.now;
          how = front.how.now;
          context = front.context.now;
          used = front.used.now;
          rest = front.rest.now;
        })) }
{
    let (number, rest) = cut(b' ', line)?;
    let (how, rest) = cut(b' ', rest)?;
    let (context, rest) = cut(b' ', rest)?;
    let (used, rest) = cut(b' ', rest)?;
    Some(FrontWords {
        number,
        how,
        context,
        used,
        rest,
    })
}

/// What the first four words say.
#[derive(Clone, Copy)]
pub struct Service {
    pub i: u32,
    pub how: How,
    pub context: u32,
    pub used: u32,
}

/// What these words say, if each is one of its field.
#[tactic(auto, unfolding(crate::specs::Reading::service_of))]
pub fn read_service(front: &FrontWords<'_>) -> Option<Service>
    ensures { result ≡ model.service_of (record {
      number = front.now.number.now;
      how = front.now.how.now;
      context = front.now.context.now;
      used = front.now.used.now;
      rest = front.now.rest.now;
    }) }
{
    let i = read_count(front.number)?;
    let how = read_how(front.how)?;
    let context = read_lettered(b'c', front.context)?;
    let used = read_lettered(b'u', front.used)?;
    Some(Service {
        i,
        how,
        context,
        used,
    })
}
