//! Acts that were done, and the replies to them.

use draft_model::float_run::FloatRun;

/// The reply to an act.
#[derive(Clone, Copy, Debug, PartialEq, Eq)]
pub enum Reply {
    /// The paper was painted.
    Painted,
    /// The commit was accepted, and made the version of this number. Version 0 is the opening paper, and each accepted commit makes
    /// the next.
    Accepted(u32),
    /// The commit was refused for this float: the first over its limit in the cloth of the bound paper.
    Refused(FloatRun),
}

/// An act that was done, by whom, and the reply to it. Shifts and painters are counted from 0, and `number` counts the painter's acts of
/// that shift from 1.
#[derive(Clone, Copy, Debug, PartialEq, Eq)]
pub struct Entry {
    pub shift: u32,
    pub painter: u32,
    pub number: u32,
    pub reply: Reply,
}
