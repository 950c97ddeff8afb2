//! Tests of the checker of reports, over public calls alone.
//!
//! They stand in a crate of their own, so that the crates below are not proved once more with them.
#![tactic(auto)]

#[cfg(test)]
mod changes;
#[cfg(test)]
mod reports;
