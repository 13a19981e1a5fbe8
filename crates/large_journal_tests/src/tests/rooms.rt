//! Both lists filled to their rooms of 256, and one more.

use super::lines::{Next, all_stand, events, first_other, lines, sizes};
use run_journal::Journal;
use std::test::Fail;

/// One layer and one context more, each only where the last of its list went.
const ONE_MORE: &[Next] = &[
    ("start 257 256 0", true),
    ("deploy 257 image 257 1", true),
    ("built 257 1024 1", true),
    ("keep 1024", false),
    ("drop 1023", false),
    ("drop 769", false),
    ("drop 768", true),
    ("keep 1024", true),
    ("answer 257 257 0", true),
    ("park 257", false),
    ("evict 256", false),
    ("evict 2", false),
    ("evict 1", true),
    ("park 257", true),
];

/// After 256 requests contexts 1 to 256 are idle, and layers 768 to 1,023 are kept.
#[test]
fn a_full_room_has_no_place_for_one_more(rt: HostRuntime) -> Result<(), Fail> {
    let mut journal = Journal::open(rt.alloc(), sizes(rt.alloc())?);
    let text = lines(rt.alloc(), 256)?;
    let events = events(rt.alloc(), text.as_str())?;
    assert!(rt; all_stand(&mut journal, &events)?);
    assert_eq!(rt; (journal.idle().len(), journal.kept().len()), (256, 256));
    assert_eq!(rt; first_other(&mut journal, ONE_MORE)?, None);
    assert_eq!(rt; (journal.idle().len(), journal.kept().len()), (256, 256));
    Ok(())
}
