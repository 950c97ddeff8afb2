//! The published list, and the rule that it keeps. Both are private matters of the ends; their types are public since
//! the fields of the ends have them.

ghost use Rattle.shed_publish.specs.inner.Rule.{put_at, entries_of, newcomer, Keeps, Sees, informed};

use crate::newest::{Newest, Version};
use atomic_table::{Join, Split};
use crossbeam_utils::rule::{Outcome, Protocol};
use left_right::Absorb;
use std::alloc::AllocError;
use std::collections::LinkedList;
use std::sync::Arc;

/// The published list, as each of the two copies has it.
#[derive(Drop)]
pub struct Board {
    pub entries: Vec<Newest>,
}

/// The operation that puts an entry at a place and takes out what stands behind it. A publication that failed leaves
/// its operation pending; since the next one has the same place, nothing of the failed one is ever shown.
#[derive(Drop)]
pub struct Put {
    pub at: usize,
    pub entry: Newest,
}

/// What an end knows of the list: what it saw last, and what it learnt since. No value of it is made.
pub struct View {
    pub seen: LinkedList<Version>,
    pub learnt: LinkedList<LinkedList<Version>>,
}

impl Absorb<Put> for Board {
    type State = [Version; 0];

    ghost state = { entries_of };

    ghost applied = { put_at };

    fn absorb_first(&mut self, operation: &Put, _other: &Board) -> Result<(), AllocError> {
        let cards = Arc::try_clone(&operation.entry.cards)?;
        self.entries.reserve(1)?;
        self.entries.truncate(operation.at);
        let version = operation.entry.version;
        self.entries.push_reserved(Newest { version, cards });
        Ok(())
    }
}

/// The rule: entry k has version k, all cards are of one design, and the list begins with all that an end saw or
/// learnt.
pub struct Published;

impl Protocol<Board, View> for Published {
    ghost holds = { Keeps };

    ghost first = { newcomer };
}

/// What a reading and a publication leave: the end that did it has seen the whole list.
pub struct Looks;

impl Outcome<Board, View> for Looks {
    ghost then = { Sees };
}

/// How a list is told: the desk keeps what it has seen, and the end that learns it knows the list from then on.
pub struct Notes;

impl Split<View> for Notes {
    ghost left = { λ v. v };

    ghost right = { λ v. v };
}

impl Join<View> for Notes {
    ghost both = { informed };

    ghost spent = { newcomer };
}
