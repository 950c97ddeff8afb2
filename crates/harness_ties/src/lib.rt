//! Harness ties: which column of the point paper each warp end is tied to, and which ends each column lifts.
#![tactic(auto)]

pub mod fault;
mod grouping;
mod joining;
pub mod laws;
pub mod section;
mod stretch;
pub mod tie;
