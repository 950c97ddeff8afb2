//! Tests of shelves, sinks and gates, over real files where only those show it.
//!
//! They stand in a crate of their own, so that the crates below are not proved once more with them.
#![tactic(auto)]

#[cfg(test)]
mod fake_files;
#[cfg(test)]
mod file_shelves;
#[cfg(test)]
mod file_writes;
#[cfg(test)]
mod held_gates;
#[cfg(test)]
mod pieces;
