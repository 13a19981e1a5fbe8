//! An event, read from its line.

ghost use Rattle.std.specs.Prelude.{◌≡◌, MatchOption, Some, None, option_and_then};
ghost use Rattle.journal_model.specs.declared.event.Event.{Event};
ghost use Rattle.journal_model.specs.declared.event.Event.TheVariants.{Start, Take, Refill};
ghost use Rattle.journal_model.specs.declared.event.Event.TheVariants.{Built, Answer};
ghost use Rattle.journal_model.specs.Line.{IsEventLine};
ghost use Rattle.event_text.specs.declared.field.Field.TheVariants.{Short, Count, Positive, Long};
ghost use Rattle.event_text.specs.Reading as model;

use crate::field::{Field, number, one, three, two, word_size};
use crate::kind::{Kind, is, kind_of};
use journal_model::Event;

/// One number of 16 bits.
fn short(text: &[u8]) -> Option<u16>
    ensures { result ≡ model.one_of Short text.now }
{
    let n = one(Field::Short, text)?;
    Some(n as u16)
}

/// One number of 32 bits.
fn count(text: &[u8]) -> Option<u32>
    ensures { result ≡ model.one_of Count text.now }
{
    let n = one(Field::Count, text)?;
    Some(n as u32)
}

/// One number of 32 bits, but 0.
fn positive(text: &[u8]) -> Option<u32>
    ensures { result ≡ model.one_of Positive text.now }
{
    let n = one(Field::Positive, text)?;
    Some(n as u32)
}

/// The fields of a `start`.
fn start(text: &[u8]) -> Option<Event>
    ensures { result ≡ model.with_three (λ i f t. Start i f t)
        (model.three_of Count Short Long text.now) }
{
    let (i, f, t) = three(Field::Count, Field::Short, Field::Long, text)?;
    Some(Event::Start {
        i: i as u32,
        f: f as u16,
        t,
    })
}

/// The fields of a `take`.
fn take(text: &[u8]) -> Option<Event>
    ensures { result ≡ model.with_two (λ c i. Take c i) (model.two_of Positive Count text.now) }
{
    let (c, i) = two(Field::Positive, Field::Count, text)?;
    Some(Event::Take {
        c: c as u32,
        i: i as u32,
    })
}

/// The fields of a `refill`.
fn refill(text: &[u8]) -> Option<Event>
    ensures { result ≡ model.with_three (λ c h n. Refill c h n)
        (model.three_of Positive Count Positive text.now) }
{
    let (c, h, n) = three(Field::Positive, Field::Count, Field::Positive, text)?;
    Some(Event::Refill {
        c: c as u32,
        h: h as u32,
        n: n as u32,
    })
}

/// The fields of a `built`.
fn built(text: &[u8]) -> Option<Event>
    ensures { result ≡ model.with_three (λ c k d. Built c k d)
        (model.three_of Positive Short Count text.now) }
{
    let (c, k, d) = three(Field::Positive, Field::Short, Field::Count, text)?;
    Some(Event::Built {
        c: c as u32,
        k: k as u16,
        d: d as u32,
    })
}

/// The fields of an `answer`.
fn answer(text: &[u8]) -> Option<Event>
    ensures { result ≡ model.with_three (λ i c u. Answer i c u)
        (model.three_of Count Positive Count text.now) }
{
    let (i, c, u) = three(Field::Count, Field::Positive, Field::Count, text)?;
    Some(Event::Answer {
        i: i as u32,
        c: c as u32,
        u: u as u32,
    })
}

/// What follows the word of the image, where it stands there.
#[tactic(auto, unfolding(crate::specs::Reading::after_image))]
fn after_image(text: &[u8]) -> Option<&[u8]>
    ensures { MatchOption result (model.after_image text.now ≡ None)
        (λ rest. model.after_image text.now ≡ Some rest.now) }
{
    if text.len() >= 6 && is(&text[..6], " image") {
        return Some(&text[6..]);
    }
    None
}

/// The fields of a `deploy`.
#[tactic(auto, unfolding(crate::specs::Reading::deploy_of))]
fn deploy(text: &[u8]) -> Option<Event>
    ensures { result ≡ model.deploy_of text.now }
{
    let (c, rest) = number(Field::Positive, text)?;
    let c = c as u32;
    if let Some((k, i, n)) = three(Field::Short, Field::Count, Field::Count, rest) {
        let k = Some(k as u16);
        let (i, n) = (i as u32, n as u32);
        return Some(Event::Deploy { c, k, i, n });
    }
    let rest = after_image(rest)?;
    let (i, n) = two(Field::Count, Field::Count, rest)?;
    let (i, n) = (i as u32, n as u32);
    Some(Event::Deploy { c, k: None, i, n })
}

/// The event of a kind with these fields.
#[tactic(auto, unfolding(crate::specs::Reading::event_of))]
fn fields(kind: Kind, text: &[u8]) -> Option<Event>
    ensures { result ≡ model.event_of kind text.now }
{
    match kind {
        Kind::Start => start(text),
        Kind::Take => take(text),
        Kind::Deploy => deploy(text),
        Kind::Refill => refill(text),
        Kind::Built => built(text),
        Kind::Keep => Some(Event::Keep { k: short(text)? }),
        Kind::Dup => Some(Event::Dup { k: short(text)? }),
        Kind::Drop => Some(Event::Drop { k: short(text)? }),
        Kind::Evict => Some(Event::Evict { c: positive(text)? }),
        Kind::Park => Some(Event::Park { c: positive(text)? }),
        Kind::End => Some(Event::End { c: positive(text)? }),
        Kind::Back => Some(Event::Back { n: positive(text)? }),
        Kind::Refuse => Some(Event::Refuse { i: count(text)? }),
        Kind::Want => Some(Event::Want { i: count(text)? }),
        Kind::Answer => answer(text),
    }
}

/// The event that the line spells, as the definition reads it.
#[tactic(auto, unfolding(crate::specs::Reading::read_line))]
fn read_line(line: &[u8]) -> Option<Event>
    ensures { result ≡ model.read_line line.now }
{
    let size = word_size(line);
    let kind = kind_of(&line[..size])?;
    fields(kind, &line[size..])
}

/// The event that a line spells, without the line's end. None exactly where it spells none: where
/// its word, a space, a number, or the range of one isn't as it must be.
pub fn read_event(line: &[u8]) -> Option<Event>
    ensures { MatchOption result ((event : Event) → IsEventLine line.now event → ⊥)
        (λ event. IsEventLine line.now event) }
{
    read_line(line)
}
