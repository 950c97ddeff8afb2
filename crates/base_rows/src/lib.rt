//! Tests of the base: rows, grids, texts and lists, by what is written out by hand and at the greatest sizes.
//!
//! They stand in a crate of their own, so that the crate below is not proved once more with them. What a clause says of every row
//! is not tried again here.
#![tactic(auto)]

#[cfg(test)]
mod expect;
#[cfg(test)]
mod rows;
#[cfg(test)]
mod texts;
