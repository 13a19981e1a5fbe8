//! Contexts whose numbers are above 65,535, beside those with the same low 16 bits.

use super::lines::{Next, all_stand, first_other};
use run_journal::{Event, FunctionStack, Journal, Sizes};
use std::alloc::Global;
use std::test::Fail;

/// Five functions without layers, over copied pages, with room for four idle contexts.
fn sizes(alloc: Global) -> Result<Sizes, Fail> {
    let mut stacks = Vec::new(alloc);
    for _ in 0..5_u8 {
        let layers = Vec::new(alloc);
        stacks.push(FunctionStack { start: 0, layers })?;
    }
    Ok(Sizes {
        frames: 0,
        root: 0,
        idle: 4,
        layers: 1,
        uses: 64,
        requests: 65_541,
        clock: None,
        stacks,
    })
}

/// Request `i` is served by context `i`: of function 0, and then the context is over; above
/// 65,536 of a function of its own, and the context becomes idle. Tells whether all may stand.
fn serve(journal: &mut Journal, i: u32) -> Result<bool, Fail> {
    let f = i.saturating_sub(65_536).min(4) as u16;
    let end = if f == 0 {
        Event::End { c: i }
    } else {
        Event::Park { c: i }
    };
    let start = Event::Start { i, f, t: 0 };
    let (k, n, u) = (None, 0, 0);
    let deploy = Event::Deploy { c: i, k, i, n };
    all_stand(journal, &[start, deploy, Event::Answer { i, c: i, u }, end])
}

/// Requests 1 to 65,540 are served one after another. Tells whether all may stand.
fn serve_all(journal: &mut Journal) -> Result<bool, Fail> {
    for n in 0..65_540_u32 {
        if !serve(journal, n.saturating_add(1))? {
            return Ok(false);
        }
    }
    Ok(true)
}

/// Context 65,537 serves once more, and context 1 doesn't.
const ONE_MORE: &[Next] = &[
    ("start 65541 1 0", true),
    ("take 1 65541", false),
    ("take 65537 5", false),
    ("take 65537 65541", true),
    ("answer 65541 1 1", false),
    ("answer 65541 65537 1", true),
    ("park 1", false),
    ("end 1", false),
    ("park 65537", true),
];

/// The function of a context, and how many requests it has answered.
fn shown(journal: &Journal, c: u32) -> Result<(u16, u64), Fail> {
    let context = journal.context(c).ok_or("a context")?;
    Ok((context.function, context.used))
}

#[test]
fn contexts_have_numbers_above_65_535(rt: HostRuntime) -> Result<(), Fail> {
    let mut journal = Journal::open(rt.alloc(), sizes(rt.alloc())?);
    assert!(rt; serve_all(&mut journal)?);
    assert_eq!(rt; journal.contexts().len(), 65_540);
    assert_eq!(rt; journal.idle(), [65_540, 65_539, 65_538, 65_537].as_slice());
    assert_eq!(rt; first_other(&mut journal, ONE_MORE)?, None);
    assert_eq!(rt; journal.idle(), [65_537, 65_540, 65_539, 65_538].as_slice());
    assert_eq!(rt; shown(&journal, 65_537)?, (1, 2));
    assert_eq!(rt; shown(&journal, 1)?, (0, 1));
    let request = journal.request(65_541).ok_or("a request")?;
    assert_eq!(rt; (request.context, request.used), (Some(65_537), 1));
    Ok(())
}
