//! The largest journal.

use mill_base::limits::MAX_ACTS;
use std::test::Fail;
use version_journal::entry::{Entry, Reply};
use version_journal::journal::Journal;

const PAINTED: Entry = Entry {
    shift: 0,
    painter: 0,
    number: 1,
    reply: Reply::Painted,
};

#[test]
fn a_journal_has_room_for_all_acts_of_the_longest_session(rt: HostRuntime) -> Result<(), Fail> {
    let mut journal = Journal::new(rt.alloc(), MAX_ACTS)?;
    for _ in 0..300 {
        if journal.spare() > 0 {
            journal.push(PAINTED);
        }
    }
    assert_eq!(rt; journal.spare(), MAX_ACTS - 300);
    assert_eq!(rt; journal.entries().len(), 300);
    Ok(())
}
