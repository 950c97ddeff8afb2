//! The blocks of a session's journal: which of them a session allows, and their acts, done on a core.
#![tactic(auto)]

mod acting;
pub mod counts;
pub mod taking;
