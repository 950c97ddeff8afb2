//! The acts of a run in order: the replies to them and the versions of the paper that they make, and what a run leaves of them.
#![tactic(auto)]

pub mod entry;
pub mod journal;
pub mod laws;
pub mod run_log;
