//! Numbers that no line has, and clocks.

use super::rows::{add_events, legal, sizes, verdict};
use run_journal::{Event, Judged, judge};
use std::test::Fail;

/// Events of context 0, of which there is none, and of no frames.
const NONE: [Event; 9] = [
    Event::Refill { c: 1, h: 0, n: 0 },
    Event::Refill { c: 0, h: 0, n: 1 },
    Event::Back { n: 0 },
    Event::Take { c: 0, i: 2 },
    Event::Evict { c: 0 },
    Event::Park { c: 0 },
    Event::End { c: 0 },
    Event::Built { c: 0, k: 0, d: 1 },
    Event::Answer { i: 1, c: 0, u: 0 },
];

/// Behind a deploy that took the one frame, none of them may stand.
#[test]
fn nothing_is_of_none(rt: HostRuntime) -> Result<(), Fail> {
    let sizes = sizes(rt.alloc(), (1, 1, 1, 1, 3), &[&[0]])?;
    for event in NONE {
        let mut events = Vec::new(rt.alloc());
        add_events(&mut events, "start 1 0 0|deploy 1 image 1 1|start 2 0 0")?;
        events.push(event)?;
        let found = judge(rt.alloc(), &sizes, &events)?;
        assert_eq!(rt; found, Judged::Broken { at: 3 }, "{event:?}");
    }
    Ok(())
}

/// What the clock shows, the start of a request, and whether it may stand there.
const CLOCKS: [(Option<u64>, &str, bool); 8] = [
    (None, "start 1 0 0", true),
    (None, "start 1 0 7", true),
    (None, "start 1 0 18446744073709551615", true),
    (Some(7), "start 1 0 7", true),
    (Some(7), "start 1 0 6", false),
    (Some(7), "start 1 0 8", false),
    (Some(7), "start 1 0 0", false),
    (Some(u64::MAX), "start 1 0 18446744073709551615", true),
];

#[test]
fn a_request_is_started_where_the_clock_shows_it(rt: HostRuntime) -> Result<(), Fail> {
    let mut sizes = sizes(rt.alloc(), (64, 1, 1, 1, 1), &[&[0]])?;
    for (clock, start, may_stand) in CLOCKS {
        sizes.clock = clock;
        let found = verdict(rt.alloc(), &sizes, start, "want 1")?;
        let wanted = if may_stand {
            legal((1, 0, 0, 0, 1, 64))
        } else {
            Judged::Broken { at: 0 }
        };
        assert_eq!(rt; found, wanted, "{clock:?} {start}");
    }
    Ok(())
}
