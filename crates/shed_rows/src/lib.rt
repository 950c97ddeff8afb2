//! Tests of the desk that publishes, of looms and of shifts.
//!
//! They stand in a crate of their own, so that the crates below are not proved once more with them.
#![tactic(auto)]

#[cfg(test)]
mod desks;
#[cfg(test)]
mod expect;
#[cfg(test)]
mod looms;
#[cfg(test)]
mod shifts;
