//! Tests of the pages of help.
//!
//! They stand in a crate of their own, so that the crates below are not proved once more with them.
#![tactic(auto)]

#[cfg(test)]
mod pages;
