//! Tests of session files and of the lines of a report.
//!
//! They stand in a crate of their own, so that the crates below are not proved once more with them.
#![tactic(auto)]

#[cfg(test)]
mod reports;
#[cfg(test)]
mod sessions;
