//! Tests of the list of all floats of a cloth, and of the lines that tell them.
//!
//! They stand in a crate of their own, so that the crates below are not proved once more with them.
#![tactic(auto)]

#[cfg(test)]
mod lines;
