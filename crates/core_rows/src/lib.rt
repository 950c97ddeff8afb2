//! Tests of rebuilt tiles and of the core that keeps a bound paper.
//!
//! They stand in a crate of their own, so that the crates below are not proved once more with them.
#![tactic(auto)]

#[cfg(test)]
mod cores;
#[cfg(test)]
mod rebuilding;
