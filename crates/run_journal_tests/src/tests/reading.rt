//! A journal that is read event by event, and what is asked of it on the way.

use super::variants::{events, sizes};
use run_journal::{Event, Journal, Standing};
use std::alloc::Global;
use std::test::Fail;

/// A journal of one function on one layer, after these events.
fn after(alloc: Global, text: &str) -> Result<Journal, Fail> {
    let mut journal = Journal::open(alloc, sizes(alloc, (64, 1, 1, 1, 64, 2), "0")?);
    for event in events(alloc, text)? {
        let _may_stand = journal.step(event)?;
    }
    Ok(journal)
}

#[test]
fn a_journal_shows_where_it_stands(rt: HostRuntime) -> Result<(), Fail> {
    let alloc = rt.alloc();
    let text = "start 1 0 0|deploy 1 image 1 1|built 1 0 1|keep 0|answer 1 1 0|park 1";
    let journal = after(alloc, text)?;
    let request = journal.request(1).ok_or("a request")?;
    assert_eq!(rt;
        (request.standing, request.place),
        (Standing::Answered, Some(0))
    );
    let context = journal.context(1).ok_or("a context")?;
    assert_eq!(rt; (context.used, context.layer), (1, Some(0)));
    assert_eq!(rt;
        (journal.idle(), journal.kept()),
        ([1].as_slice(), [0].as_slice())
    );
    assert_eq!(rt; (journal.free(), journal.totals().cold), (63, 1));
    Ok(())
}

#[test]
fn a_journal_is_whole_where_nothing_is_open(rt: HostRuntime) -> Result<(), Fail> {
    let alloc = rt.alloc();
    for (text, whole, owes) in [
        ("start 1 0 0", false, false),
        ("start 1 0 0|want 1", true, false),
        ("start 1 0 0|deploy 1 image 1 1|want 1", false, false),
        ("start 1 0 0|deploy 1 image 1 1|want 1|end 1", true, false),
        ("start 1 0 0|deploy 1 image 1 1|answer 1 1 0", false, true),
        (
            "start 1 0 0|deploy 1 image 1 1|answer 1 1 0|park 1",
            true,
            false,
        ),
    ] {
        let journal = after(alloc, text)?;
        assert_eq!(rt;
            (journal.is_whole(), !journal.owes_nothing()),
            (whole, owes),
            "{text}"
        );
    }
    Ok(())
}

#[test]
fn an_event_that_may_not_stand_changes_nothing(rt: HostRuntime) -> Result<(), Fail> {
    let alloc = rt.alloc();
    let mut journal = after(alloc, "start 1 0 0|deploy 1 image 1 1")?;
    let before = (journal.free(), journal.totals());
    for wrong in [
        Event::Take { c: 1, i: 1 },
        Event::Refuse { i: 1 },
        Event::Keep { k: 0 },
    ] {
        assert!(rt; !journal.step(wrong)?);
    }
    assert_eq!(rt; (journal.free(), journal.totals()), before);
    Ok(())
}
