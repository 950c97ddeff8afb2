//! Tests of designs, cards, machines, journals and the files of a cloth.
//!
//! They stand in a crate of their own, so that the crates below are not proved once more with them.
#![tactic(auto)]

#[cfg(test)]
mod cards;
#[cfg(test)]
mod designs;
#[cfg(test)]
mod files;
#[cfg(test)]
mod images;
#[cfg(test)]
mod journals;
#[cfg(test)]
mod machines;
