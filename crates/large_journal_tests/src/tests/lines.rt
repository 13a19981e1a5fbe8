//! A journal of 4,096 requests, whose lines were worked out by hand: request r, counted from 1, is
//! of function (r - 1) mod 257, whose four layers were dropped since it was served last. So each
//! is cold, and each builds layers 4 (r - 1) to 4 (r - 1) + 3, modulo 1,028. From the 257th layer
//! on the one before the last 256 goes for each, and from the 257th request on so does a context.

use run_journal::{
    Event, FunctionStack, Journal, Judged, Sizes, Totals, judge, print_event, read_event,
};
use std::alloc::Global;
use std::test::Fail;

/// How many functions there are.
const FUNCTIONS: u32 = 257;

/// How many layers they have together.
const LAYERS: u32 = 1_028;

/// The four layers of a function.
fn stack(alloc: Global, f: u16) -> Result<FunctionStack, Fail> {
    let mut layers = Vec::new(alloc);
    for j in 0..4_u16 {
        layers.push(f.saturating_mul(4).saturating_add(j))?;
    }
    Ok(FunctionStack { start: 0, layers })
}

/// The greatest rooms of a plan, and 257 functions.
pub fn sizes(alloc: Global) -> Result<Sizes, Fail> {
    let mut stacks = Vec::new(alloc);
    for f in 0..257_u16 {
        stacks.push(stack(alloc, f)?)?;
    }
    Ok(Sizes {
        frames: 65_536,
        root: 1,
        idle: 256,
        layers: 256,
        uses: 64,
        requests: 4_096,
        clock: Some(0),
        stacks,
    })
}

/// The lines of the layer that is built as number `s`, counted from 0, by context `c`.
fn add_layer(alloc: Global, text: &mut String, c: u32, s: u32) -> Result<(), Fail> {
    let k = s % LAYERS;
    text.push_str(format!(in alloc; "built {c} {k} 1\n")?.as_str())?;
    if s >= 256 {
        let last = (s - 256) % LAYERS;
        text.push_str(format!(in alloc; "drop {last}\n")?.as_str())?;
    }
    text.push_str(format!(in alloc; "keep {k}\n")?.as_str())?;
    Ok(())
}

/// The lines of the answer of request `r`, which context `r` served.
fn add_answer(alloc: Global, text: &mut String, r: u32) -> Result<(), Fail> {
    text.push_str(format!(in alloc; "answer {r} {r} 0\n")?.as_str())?;
    if r > 256 {
        let last = r - 256;
        text.push_str(format!(in alloc; "evict {last}\n")?.as_str())?;
    }
    text.push_str(format!(in alloc; "park {r}\n")?.as_str())?;
    Ok(())
}

/// The lines of the request after `n` others.
fn add_request(alloc: Global, text: &mut String, n: u32) -> Result<(), Fail> {
    let f = n % FUNCTIONS;
    let r = n.saturating_add(1);
    text.push_str(format!(in alloc; "start {r} {f} 0\ndeploy {r} image {r} 1\n")?.as_str())?;
    for j in 0..4_u32 {
        add_layer(alloc, text, r, n.saturating_mul(4).saturating_add(j))?;
    }
    add_answer(alloc, text, r)
}

/// The lines of so many requests.
pub fn lines(alloc: Global, requests: u32) -> Result<String, Fail> {
    let mut text = String::new(alloc);
    for n in 0..requests {
        add_request(alloc, &mut text, n)?;
    }
    Ok(text)
}

/// The events of lines, each of which ends with a line feed.
pub fn events(alloc: Global, text: &str) -> Result<Vec<Event>, Fail> {
    let mut events = Vec::new(alloc);
    for line in text.split('\n') {
        if !line.is_empty() {
            events.push(read_event(line.as_bytes()).ok_or("an event line")?)?;
        }
    }
    Ok(events)
}

/// A line of an event, and whether it may stand. One that may not changes nothing.
pub type Next = (&'static str, bool);

/// Whether the event of a line may stand next.
fn step_line(journal: &mut Journal, line: &str) -> Result<bool, Fail> {
    let event = read_event(line.as_bytes()).ok_or("an event line")?;
    Ok(journal.step(event)?)
}

/// Steps through lines one after another, to the first that may stand where its row says that it
/// may not, or the other way round; none where each is as its row says.
pub fn first_other(journal: &mut Journal, rows: &[Next]) -> Result<Option<Next>, Fail> {
    for row in rows {
        let (line, stands) = *row;
        if step_line(journal, line)? != stands {
            return Ok(Some(*row));
        }
    }
    Ok(None)
}

/// Steps through events, and tells whether each may stand.
pub fn all_stand(journal: &mut Journal, events: &[Event]) -> Result<bool, Fail> {
    for event in events {
        if !journal.step(*event)? {
            return Ok(false);
        }
    }
    Ok(true)
}

/// Adds the line of an event, with its line feed, to bytes.
fn add_line(alloc: Global, event: &Event, out: &mut Vec<u8>) -> Result<(), Fail> {
    print_event(alloc, event, out)?;
    out.push(b'\n')?;
    Ok(())
}

/// Adds the lines of events to bytes.
fn add_lines(alloc: Global, events: &[Event], out: &mut Vec<u8>) -> Result<(), Fail> {
    for event in events {
        add_line(alloc, event, out)?;
    }
    Ok(())
}

#[test]
fn a_large_journal_is_read_and_printed(rt: HostRuntime) -> Result<(), Fail> {
    let text = lines(rt.alloc(), 4_096)?;
    let events = events(rt.alloc(), text.as_str())?;
    assert_eq!(rt; events.len(), 69_120);
    let mut out = Vec::new(rt.alloc());
    add_lines(rt.alloc(), &events, &mut out)?;
    assert!(rt; out.as_slice() == text.as_bytes());
    Ok(())
}

/// Each request took a frame. One event more may not stand.
#[test]
fn a_large_journal_is_legal(rt: HostRuntime) -> Result<(), Fail> {
    let sizes = sizes(rt.alloc())?;
    let text = lines(rt.alloc(), 4_096)?;
    let mut events = events(rt.alloc(), text.as_str())?;
    let totals = Totals {
        requests: 4_096,
        cold: 4_096,
        warm: 0,
        hot: 0,
        none: 0,
        free: 61_440,
    };
    assert_eq!(rt; judge(rt.alloc(), &sizes, &events)?, Judged::Legal(totals));
    events.push(Event::Park { c: 4_096 })?;
    assert_eq!(rt;
        judge(rt.alloc(), &sizes, &events)?,
        Judged::Broken { at: 69_120 }
    );
    Ok(())
}

/// The idle contexts at its end are the last 256, and so are the kept layers: numbers 16,383 to
/// 16,128 of those that were built, modulo 1,028.
#[test]
fn a_large_journal_ends_with_the_most_recent(rt: HostRuntime) -> Result<(), Fail> {
    let mut journal = Journal::open(rt.alloc(), sizes(rt.alloc())?);
    let text = lines(rt.alloc(), 4_096)?;
    let events = events(rt.alloc(), text.as_str())?;
    assert!(rt; all_stand(&mut journal, &events)?);
    let (idle, kept) = (journal.idle(), journal.kept());
    assert_eq!(rt; (idle.len(), kept.len()), (256, 256));
    assert_eq!(rt;
        (idle.first().copied(), idle.last().copied()),
        (Some(4_096), Some(3_841))
    );
    assert_eq!(rt;
        (kept.first().copied(), kept.last().copied()),
        (Some(963), Some(708))
    );
    Ok(())
}
