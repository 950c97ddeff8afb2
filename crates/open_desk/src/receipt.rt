//! What a caller gets for an act.

use strokes::act::Act;
use version_journal::entry::Reply;

/// An act that was done: the place of its entry among all entries of the desk, counted from 0, the act, and the reply to it.
#[derive(Clone, Copy, Debug, PartialEq, Eq)]
pub struct Receipt {
    pub place: u32,
    pub act: Act,
    pub reply: Reply,
}
