//! What the studio prints: the report of a run, the lines of a check and of a trial, and why it ends.
#![tactic(auto)]

pub mod cause;
mod cloth_text;
pub mod fault_line;
mod growing;
pub mod report;
pub mod summary;
mod telling;
